//! The rule of the board, and what each step tells the seat that makes it.
use crate::view::View;
use atomic_table::{Join, Play, Split, TableRule};

pub struct Contexts;

// A board has no slots, so the type of their values stands for nothing.
impl TableRule<u8, View, usize> for Contexts {
    ghost use Rattle.interrupt_ctx.specs.Rule.{BoardRule};
    ghost use Rattle.interrupt_ctx.specs.Views.{first_view};

    ghost holds = { λ contexts s. BoardRule contexts s.words s.views };

    ghost first = { λ _. first_view };
}

pub struct Sets;

impl Play<u8, View> for Sets {
    ghost use Rattle.interrupt_ctx.specs.Steps.{SetTells};

    ghost then = { SetTells };
}

/// The first load of a look.
pub struct LooksAtOwn;

impl Play<u8, View> for LooksAtOwn {
    ghost use Rattle.interrupt_ctx.specs.Steps.{OwnTells};

    ghost then = { OwnTells };
}

/// The second, of context 0.
pub struct LooksAtRoot;

impl Play<u8, View> for LooksAtRoot {
    ghost use Rattle.interrupt_ctx.specs.Steps.{RootTells};

    ghost then = { RootTells };
}

/// What a view tells of the whole board.
pub struct Learns;

impl Play<u8, View> for Learns {
    ghost use Rattle.interrupt_ctx.specs.Steps.{LearnTells};

    ghost then = { LearnTells };
}

pub struct Parts;

impl Split<View> for Parts {
    ghost use Rattle.interrupt_ctx.specs.Views.{giving, split_off};

    ghost left = { giving };

    ghost right = { split_off };
}

impl Join<View> for Parts {
    ghost use Rattle.interrupt_ctx.specs.Views.{joined, blank_view};

    ghost both = { joined };

    ghost spent = { blank_view };
}
