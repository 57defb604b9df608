//! The text of a description, and the word of steps.
use crate::plan::{Group, Listing, Plan, StandIn, Stream};
use crate::steps::{Name, Step};
use random_files::{Dice, File};
use std::alloc::{AllocError, Global};

/// Appends a step with its argument.
fn put_step(text: &mut String, step: &Step) -> Result<(), AllocError> {
    text.push_str(step.name.text())?;
    if step.name == Name::Lookup {
        write!(text, " n{}", step.table)?;
    }
    match step.name {
        Name::Filter | Name::Between => write!(text, " {}", step.text),
        Name::Field | Name::Lookup | Name::Take | Name::Drop | Name::Chunk => {
            text.push_str(if step.has_zeros { " 00" } else { " " })?;
            write!(text, "{}", step.number)
        }
        _ => Ok(()),
    }
}

/// The line of a key whose value is an array of steps.
fn steps_line(alloc: Global, key: &str, steps: &[Step]) -> Result<String, AllocError> {
    let mut line = format!(in alloc; "{key} = [")?;
    for step in steps {
        line.push('\'')?;
        put_step(&mut line, step)?;
        line.push_str("', ")?;
    }
    line.push_str("]\n")?;
    Ok(line)
}

/// The steps with bars between them, as a word of the command line has them.
pub fn steps_word(alloc: Global, steps: &[Step]) -> Result<String, AllocError> {
    let mut word = String::new(alloc);
    for (place, step) in steps.iter().enumerate() {
        if place != 0 {
            word.push('|')?;
        }
        put_step(&mut word, step)?;
    }
    Ok(word)
}

/// The line of a key whose value is a path.
fn path_line(alloc: Global, files: &[File], key: &str, place: usize) -> Result<String, AllocError> {
    let path = files
        .get(place)
        .map_or("nowhere", |file| file.path.as_str());
    format!(in alloc; "{key} = '{path}'\n")
}

/// Appends the line of a text in place of a fault, where there is one.
fn add_stand_in(
    alloc: Global,
    lines: &mut Vec<String>,
    on_fault: Option<StandIn>,
) -> Result<(), AllocError> {
    if let Some((spelled, _)) = on_fault {
        lines.push(format!(in alloc; "on_fault = {spelled}\n")?)?;
    }
    Ok(())
}

/// The lines of a list's keys.
fn list_lines(alloc: Global, files: &[File], list: &Listing) -> Result<Vec<String>, AllocError> {
    let mut lines = Vec::new(alloc);
    lines.push(path_line(alloc, files, "path", list.path)?)?;
    if !list.steps.is_empty() {
        lines.push(steps_line(alloc, "steps", &list.steps)?)?;
    }
    add_stand_in(alloc, &mut lines, list.on_fault)?;
    if let Some(max) = list.max {
        lines.push(format!(in alloc; "max = {max}\n")?)?;
    }
    Ok(lines)
}

/// The lines of a stream's keys.
fn stream_lines(alloc: Global, files: &[File], stream: &Stream) -> Result<Vec<String>, AllocError> {
    let mut lines = Vec::new(alloc);
    lines.push(path_line(alloc, files, "path", stream.path)?)?;
    if !stream.steps.is_empty() {
        lines.push(steps_line(alloc, "steps", &stream.steps)?)?;
    }
    if let Some((join, second)) = stream.second {
        lines.push(path_line(alloc, files, "with", second)?)?;
        lines.push(format!(in alloc; "join = \"{}\"\n", join.text())?)?;
    }
    if !stream.after.is_empty() {
        lines.push(steps_line(alloc, "after", &stream.after)?)?;
    }
    add_stand_in(alloc, &mut lines, stream.on_fault)?;
    if let Some(to) = stream.to {
        lines.push(path_line(alloc, files, "to", to)?)?;
    }
    if let Some(until) = stream.until {
        lines.push(format!(in alloc; "until = {until}\n")?)?;
    }
    Ok(lines)
}

/// Appends the lines, from a random one on.
fn put_turned(dice: &mut Dice, text: &mut String, lines: &[String]) -> Result<(), AllocError> {
    let first = dice.below(lines.len());
    for line in lines.iter().cycle().skip(first).take(lines.len()) {
        text.push_str(line.as_str())?;
    }
    Ok(())
}

/// Appends the line of a number at the top, where it is told.
fn put_number(text: &mut String, key: &str, number: Option<usize>) -> Result<(), AllocError> {
    match number {
        Some(number) => writeln!(text, "{key} = {number}"),
        None => Ok(()),
    }
}

/// Appends the tables of these numbers, which are an array of this name.
fn put_tables(
    dice: &Dice,
    text: &mut String,
    array: &str,
    plan: &Plan,
    files: &[File],
    (first, behind): (usize, usize),
) -> Result<(), AllocError> {
    for number in first..behind {
        if let Some(place) = plan.tables.get(number) {
            let path = path_line(dice.alloc, files, "path", *place)?;
            write!(text, "[[{array}]]\n{path}name = \"n{number}\"\n")?;
        }
    }
    Ok(())
}

/// Appends the streams of these numbers, which are an array of this name.
fn put_streams(
    dice: &mut Dice,
    text: &mut String,
    array: &str,
    plan: &Plan,
    files: &[File],
    (first, behind): (usize, usize),
) -> Result<(), AllocError> {
    for number in first..behind {
        if let Some(stream) = plan.streams.get(number) {
            write!(text, "[[{array}]]\n")?;
            let lines = stream_lines(dice.alloc, files, stream)?;
            put_turned(dice, text, &lines)?;
        }
    }
    Ok(())
}

/// Appends a group, its tables in front of its streams or behind them.
fn put_group(
    dice: &mut Dice,
    text: &mut String,
    plan: &Plan,
    files: &[File],
    group: Group,
) -> Result<(), AllocError> {
    text.push_str("[[group]]\n")?;
    if dice.chance(2) {
        put_tables(dice, text, "group.table", plan, files, group.tables)?;
        put_streams(dice, text, "group.stream", plan, files, group.streams)
    } else {
        put_streams(dice, text, "group.stream", plan, files, group.streams)?;
        put_tables(dice, text, "group.table", plan, files, group.tables)
    }
}

/// Appends the list, where there is one.
fn put_list(
    dice: &mut Dice,
    text: &mut String,
    plan: &Plan,
    files: &[File],
) -> Result<(), AllocError> {
    if let Some(list) = &plan.list {
        text.push_str("[list]\n")?;
        let lines = list_lines(dice.alloc, files, list)?;
        put_turned(dice, text, &lines)?;
    }
    Ok(())
}

/// Appends the keys of the top.
fn put_top(dice: &mut Dice, text: &mut String, plan: &Plan) -> Result<(), AllocError> {
    if plan.is_second {
        text.push_str("version = 2\n")?;
    } else if dice.chance(4) {
        text.push_str("version = 1\n")?;
    }
    put_number(text, "take", plan.take)?;
    put_number(text, "max_open", plan.max_open)?;
    put_number(text, "queue", plan.queue)?;
    put_number(text, "chunk", plan.chunk)
}

/// The text of the description.
pub fn text_of(dice: &mut Dice, plan: &Plan, files: &[File]) -> Result<String, AllocError> {
    let mut text = String::new(dice.alloc);
    put_top(dice, &mut text, plan)?;
    let (has_list_first, has_tables_first) = (dice.chance(2), dice.chance(2));
    let (tables, streams) = ((0, plan.top_tables()), (0, plan.top_streams()));
    if has_list_first {
        put_list(dice, &mut text, plan, files)?;
    }
    if has_tables_first {
        put_tables(dice, &mut text, "table", plan, files, tables)?;
    }
    put_streams(dice, &mut text, "stream", plan, files, streams)?;
    for group in &plan.groups {
        put_group(dice, &mut text, plan, files, *group)?;
    }
    if !has_tables_first {
        put_tables(dice, &mut text, "table", plan, files, tables)?;
    }
    if !has_list_first {
        put_list(dice, &mut text, plan, files)?;
    }
    Ok(text)
}
