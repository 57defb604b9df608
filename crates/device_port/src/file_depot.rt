//! Real files as devices.
ghost use Rattle.std.specs.Prelude.{◌≡◌, nat_eq, length};
ghost use Rattle.std.specs.List.{IsDistinct-prop};
ghost use Rattle.device_port.specs.Depot.{device_numbers, HaveOwnNumbers, AreBelow};

use crate::{Depot, FileDevice, Mode};
use chunk_core::Word;
use known::{Known, Says, Steps, know, step};
use std::alloc::{AllocError, Global};
use std::marker::Model;
use std::rt::Files;

/// What a depot of real files has come to. It has no bytes, and only contracts read it.
#[derive(Drop)]
pub struct Course;

impl Model for Course {
    ghost use Rattle.device_port.specs.Depot.{CourseTold};
    ghost use Rattle.device_port.specs.contracts.device.Mode as mode_row;
    ghost use Rattle.std.specs.Prelude.{[]};
    ghost use Rattle.std.specs.Coded.{codes};

    ghost Value = { CourseTold };

    ghost view = { λ _. record { made = []; retired = [] } };

    ghost coded = { Prim.hlevel (codes, mode_row.the_row.coded) };
}

/// No device was made yet.
struct Begins;

impl<R> Says<R, Course> for Begins {
    ghost use Rattle.std.specs.Prelude.{[]};

    ghost says = { λ _. record { made = []; retired = [] } };
}

/// One more device was made.
struct Made;

impl<R, F> Steps<FileDevice<R, F>, Course> for Made {
    ghost use Rattle.std.specs.Prelude.{◌++◌, ◌∷◌, []};
    ghost use Rattle.device_port.specs.Real.{file_told};

    ghost next = { λ depot dev. record depot { made = depot.made ++ (file_told dev).place ∷ [] } };
}

/// One more device came back.
struct Returned;

impl<R, F> Steps<FileDevice<R, F>, Course> for Returned {
    ghost use Rattle.std.specs.Prelude.{◌++◌, ◌∷◌, []};
    ghost use Rattle.device_port.specs.Real.{file_told};

    ghost next = { λ depot dev. record depot { retired = depot.retired ++ file_told dev ∷ [] } };
}

/// Makes devices of real files. It keeps nothing of those that come back.
#[derive(Drop)]
pub struct FileDepot<R> {
    rt: R,
    count: u64,
    course: Known<Course>,
    ghost counted: { length course.made ≡ count },
    ghost apart: { HaveOwnNumbers course.retired } by { IsDistinct-prop nat_eq (device_numbers course.retired) },
    ghost below: { AreBelow count course.retired },
}

impl<R> FileDepot<R> {
    ghost use Rattle.std.specs.Prelude.{[], None};
    ghost use Rattle.device_port.specs.Depot.{depot_of};

    /// A depot that made no device.
    pub fn new(rt: R) -> FileDepot<R>
        ensures { depot_of result.course ≡ record { files = None; made = []; retired = [] } }
    {
        FileDepot {
            course: know::<R, Course, Begins>(&rt),
            rt,
            count: 0,
        }
    }
}

impl<R: Files + Copy> Depot for FileDepot<R> {
    ghost use Rattle.device_port.specs.Depot.{depot_of};

    type Dev = FileDevice<R, R::File>;

    ghost told = { λ depot. depot_of depot.course };

    fn make(
        &mut self,
        alloc: Global,
        path: &Word,
        mode: Mode,
    ) -> Result<FileDevice<R, R::File>, AllocError> {
        if self.count == u64::MAX {
            return Err(AllocError);
        }
        let path = Word::of(alloc, path.as_str())?;
        let dev = FileDevice::new(self.rt, self.count, path, mode);
        self.course = step::<FileDevice<R, R::File>, Course, Made>(&self.course, &dev);
        self.count += 1;
        Ok(dev)
    }

    fn retire(&mut self, dev: FileDevice<R, R::File>) {
        self.course = step::<FileDevice<R, R::File>, Course, Returned>(&self.course, &dev);
    }
}
