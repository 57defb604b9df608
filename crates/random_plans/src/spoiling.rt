//! Descriptions that are refused.
use crate::plan::Plan;
use random_files::Dice;
use std::alloc::AllocError;

/// What is put behind a description, and the number of the refusal: lines at the top, keys of a further stream, and two of its steps, of
/// which the second is refused.
const AT_TOP: [(&str, u8); 3] = [
    ("chunk = \n", 1),
    ("[[table]]\nname = 'N'\npath = 'x'\n", 4),
    ("[[table]]\nname = 'n9'\n", 3),
];

const IN_STREAM: [(&str, u8); 8] = [
    ("steps = []", 3),
    ("path = ''", 4),
    ("path = 'x'\npaths = 'y'", 2),
    ("path = 'x'\nwith = 'y'", 4),
    ("path = 'x'\nafter = ['lines']", 4),
    ("path = 'x'\nuntil = 2000", 8),
    ("path = 'x'\non_fault = 1", 3),
    ("# þ\npath = 'x'\nuntil = -1", 8),
];

const IN_STEPS: [(&str, u8); 4] = [
    ("'lines', 'lines'", 6),
    ("'lines', 'take x'", 4),
    ("'csv', 'lookup none 0'", 7),
    ("'hex', 'frob'", 5),
];

/// What no description of the first version has.
const OF_SECOND: [&str; 3] = ["[[group]]\n", "[list]\npath = 'x'\n", "[list]\n"];

/// What no group has, or no stream of one, and keys that no list has.
const IN_GROUP: [(&str, u8); 3] = [
    ("[[group]]\nstreams = []\n", 2),
    ("[[group]]\ntable = 1\n", 3),
    ("[[group]]\nstream = [1]\n", 3),
];

const IN_LIST: [(&str, u8); 5] = [
    ("steps = []", 3),
    ("path = 'x'\nto = 'y'", 2),
    ("path = 'x'\nmax = 0", 4),
    ("path = 'x'\nmax = 1025", 4),
    ("path = ''\nmax = ''", 4),
];

const REFUSED: &str = "flume: description refused";

/// Spoils a description of the first version by what the second one has, or one of that by a group or a list: the line that tells it.
fn spoil_version(dice: &mut Dice, plan: &Plan, source: &mut String) -> Result<String, AllocError> {
    let (alloc, count) = (dice.alloc, plan.streams.len());
    if !plan.is_second {
        source.push_str(dice.pick(&OF_SECOND))?;
        return format!(in alloc; "{REFUSED} 2\n");
    }
    if plan.list.is_none() && dice.chance(2) {
        let (keys, number) = dice.pick(&IN_LIST);
        write!(source, "[list]\n{keys}\n")?;
        return format!(in alloc; "{REFUSED} {number} stream {count}\n");
    }
    let table = plan.tables.len().saturating_sub(1);
    if table >= plan.top_tables() {
        source.push_str("[[group]]\n[[group.stream]]\npath = 'x'\n")?;
        write!(source, "steps = ['csv', 'lookup n{table} 0']\n")?;
        return format!(in alloc; "{REFUSED} 7 stream {count} step 1\n");
    }
    let (lines, number) = dice.pick(&IN_GROUP);
    source.push_str(lines)?;
    format!(in alloc; "{REFUSED} {number}\n")
}

/// Now and then spoils the text of a description: the line that standard error is told then.
pub fn spoil(
    dice: &mut Dice,
    plan: &Plan,
    source: &mut String,
) -> Result<Option<String>, AllocError> {
    if !dice.chance(12) {
        return Ok(None);
    }
    let (alloc, k) = (dice.alloc, plan.top_streams());
    let line = match dice.below(22) {
        0..=2 => {
            let (lines, number) = dice.pick(&AT_TOP);
            source.push_str(lines)?;
            format!(in alloc; "{REFUSED} {number}\n")?
        }
        // Refused behind what may be wrong with any stream, as it is with one of a group that is moved to the number of its own `until`.
        3 if k == plan.streams.len() => {
            source.push_str("[[stream]]\npath = 'x'\nto = 'x'\n")?;
            format!(in alloc; "{REFUSED} 4 stream {k}\n")?
        }
        3..=11 => {
            let (keys, number) = dice.pick(&IN_STREAM);
            write!(source, "[[stream]]\n{keys}\n")?;
            format!(in alloc; "{REFUSED} {number} stream {k}\n")?
        }
        12..=15 => {
            let (steps, number) = dice.pick(&IN_STEPS);
            write!(source, "[[stream]]\npath = 'x'\nsteps = [{steps}]\n")?;
            format!(in alloc; "{REFUSED} {number} stream {k} step 1\n")?
        }
        _ => spoil_version(dice, plan, source)?,
    };
    Ok(Some(line))
}
