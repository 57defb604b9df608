//! Steps, and chains of them at random.
use random_files::Dice;
use std::alloc::AllocError;

/// What elements are.
#[derive(Clone, Copy, PartialEq, Eq)]
pub enum Kind {
    Bytes,
    Lines,
    Rows,
}

/// The steps by name.
#[derive(Clone, Copy, PartialEq, Eq)]
pub enum Name {
    Utf8,
    Lossy,
    Upper,
    Hex,
    Lines,
    Csv,
    Field,
    Lookup,
    Take,
    Drop,
    Filter,
    Changes,
    Number,
    Count,
    Between,
    Chunk,
}

impl Name {
    pub fn text(self) -> &'static str {
        match self {
            Name::Utf8 => "utf8",
            Name::Lossy => "lossy",
            Name::Upper => "upper",
            Name::Hex => "hex",
            Name::Lines => "lines",
            Name::Csv => "csv",
            Name::Field => "field",
            Name::Lookup => "lookup",
            Name::Take => "take",
            Name::Drop => "drop",
            Name::Filter => "filter",
            Name::Changes => "changes",
            Name::Number => "number",
            Name::Count => "count",
            Name::Between => "intersperse",
            Name::Chunk => "chunk",
        }
    }

    /// The kind of what it gives of this kind.
    pub fn kind_of(self, kind: Kind) -> Kind {
        match self {
            Name::Hex | Name::Lines | Name::Field | Name::Count => Kind::Lines,
            Name::Csv => Kind::Rows,
            _ => kind,
        }
    }
}

/// A step with its argument, as far as it has one.
#[derive(Clone, Copy)]
pub struct Step {
    pub name: Name,
    pub number: usize,
    /// Whether zeros stand in front of the number.
    pub has_zeros: bool,
    pub table: usize,
    pub text: &'static str,
}

/// The name of a step that takes this kind.
fn name_of(dice: &mut Dice, kind: Kind) -> Name {
    match (kind, dice.below(20)) {
        (Kind::Bytes, 0..=5) => Name::Lines,
        (Kind::Bytes, 6..=10) => Name::Csv,
        (Kind::Bytes, 11 | 12) => Name::Utf8,
        (Kind::Bytes, 13) => Name::Lossy,
        (Kind::Bytes, 14) => Name::Hex,
        (Kind::Lines, 0..=3) => Name::Filter,
        (Kind::Lines, 4 | 5) => Name::Number,
        (Kind::Lines, 6 | 7) => Name::Between,
        (Kind::Lines, 8..=10) | (Kind::Rows, 0..=2) => Name::Changes,
        (Kind::Rows, 3..=7) => Name::Field,
        (Kind::Rows, 8..=13) => Name::Lookup,
        (Kind::Bytes | Kind::Lines, 15) => Name::Upper,
        (_, 14..=16) => Name::Count,
        (_, 17) => Name::Take,
        (_, 18) => Name::Drop,
        (_, 19) => Name::Chunk,
        _ => Name::Upper,
    }
}

/// A step of this name, with an argument where it has one.
fn step_of(dice: &mut Dice, name: Name, tables: &[usize]) -> Step {
    let most = match name {
        Name::Chunk => 8,
        Name::Field => 3,
        Name::Lookup => 2,
        _ => dice.pick(&[6, 6, 40]),
    };
    let text = match name {
        Name::Filter => dice.pick(&["a", "a", "a", "b", "b", "E", "x", "ER", " ", "k", "é"]),
        _ => dice.pick(&["-", "", "--", "a"]),
    };
    let place = dice.below(tables.len());
    Step {
        name,
        number: dice.few(most).max(usize::from(name == Name::Chunk)),
        has_zeros: dice.chance(8),
        table: tables.get(place).copied().unwrap_or(0),
        text,
    }
}

fn has_step(steps: &[Step], name: Name) -> bool {
    steps.iter().any(|step| step.name == name)
}

/// Appends up to so many steps, of which each takes what the one before it gives: the kind of what the last one gives. Of `before` and
/// these one at most is `intersperse`. They look up in these tables alone.
pub fn add_steps(
    dice: &mut Dice,
    steps: &mut Vec<Step>,
    before: &[Step],
    first: Kind,
    most: usize,
    tables: &[usize],
) -> Result<Kind, AllocError> {
    let mut kind = first;
    for _ in 0..dice.few(most).max(dice.few(most)) {
        let name = name_of(dice, kind);
        let is_second = has_step(before, name) || has_step(steps, name);
        if name == Name::Lookup && tables.is_empty() || name == Name::Between && is_second {
            continue;
        }
        steps.push(step_of(dice, name, tables))?;
        kind = name.kind_of(kind);
    }
    Ok(kind)
}
