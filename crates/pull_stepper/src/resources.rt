//! The devices and scopes of one stream, over its tree.
use crate::held::Held;
use chunk_core::Exit;
use device_port::{Device, Failed};
use pull_turns::Outside;
use row_seat::RowSeat;
use scope_tree::Tree;

/// A tree of scopes, and the devices that weren't acquired, each in the slot of its place. A place is
/// the row in which its device is acquired.
#[derive(Drop)]
pub struct Resources<S: RowSeat, V> {
    pub(crate) tree: Tree<S>,
    pub(crate) slots: Vec<Option<V>>,
    pub(crate) from: u32,
}

impl<V: Device, S: RowSeat<Pay = Held<V>>> Outside for Resources<S, V> {
    ghost use Rattle.pull_stepper.specs.Laws.{around_nested, later_same, later_then, waits_untried};
    ghost use Rattle.pull_stepper.specs.Resources.{Later, AreInOrder, around_of, site};

    type Desk = S::Desk;

    ghost seen = { around_of S.view V.told };

    ghost fits = { AreInOrder S.view V.told S.fits };

    ghost since = { Later S.view V.told S.fits };

    ghost held = { λ o d f. f.held };

    ghost nested = { λ o d f. around_nested V.told (site S.view o) };

    ghost untried = { λ o d f p w. waits_untried S.view V.told o p w };

    ghost begin = { later_same S.view V.told S.fits };

    ghost then = { later_then S.view V.told S.fits };

    fn open(&mut self, desk: &mut S::Desk, scope: u32, place: u32) -> Result<(), Failed> {
        let at = (place - self.from) as usize;
        let Some(device) = &mut self.slots[at] else {
            unreachable!()
        };
        device.open()?;
        let Some(device) = self.slots[at].take() else {
            unreachable!()
        };
        self.tree.acquired(desk, scope, place, Held::new(device));
        Ok(())
    }

    fn read(&mut self, _desk: &mut S::Desk, place: u32, buf: &mut [u8]) -> Result<usize, Failed> {
        self.tree.pay_mut(place).device_mut().read(buf)
    }

    fn write(&mut self, _desk: &mut S::Desk, place: u32, bytes: &[u8]) -> Result<usize, Failed> {
        self.tree.pay_mut(place).device_mut().write(bytes)
    }

    fn enter(&mut self, desk: &mut S::Desk, at: u32) -> u32 {
        self.tree.open(desk, at)
    }

    fn leave(&mut self, desk: &mut S::Desk, scope: u32, exit: Exit) {
        self.tree.close(desk, scope, exit)
    }
}
