//! Descriptions that have a point in their web: being in a class, or having an end at least so many times.
ghost use Rattle.std.specs.Prelude.{◌≡◌, ◌<◌};
ghost use Rattle.schema.specs.Keys.{keyed};
ghost use Rattle.schema.specs.Points.{point, Placed};
ghost use Rattle.schema.specs.Webs.{cls, mark};

use std::marker::Model;

/// A description, kept as its point. A contract sees the description.
#[derive(Drop)]
pub(crate) struct Description {
    point: usize,
}

impl Model for Description {
    ghost use Rattle.std.specs.Prelude.{◌<◌};
    ghost use Rattle.schema.specs.Webs.{Description as Meaning};
    ghost use Rattle.schema.specs.Points.{described};

    ghost Value = { Meaning };

    ghost view = { λ d. described d.point };

    ghost invariant = { λ d. d.point < 2048 };
}

impl Description {
    /// Being in a class.
    pub(crate) fn class(class: usize) -> Description
        requires { class < 64 }
        ensures { result ≡ cls class }
    {
        Description { point: 32 * class }
    }

    /// Having an end at least so many times.
    pub(crate) fn mark(end: usize, times: usize) -> Description
        requires { Placed (mark end times) }
        ensures { result ≡ mark end times }
    {
        Description {
            point: 32 * end + times,
        }
    }

    /// The description of a key.
    pub(crate) fn of_key(key: usize) -> Description
        requires { key < 128 }
        ensures { result ≡ keyed key }
    {
        if key < 64 {
            Description::class(key)
        } else {
            Description::mark(key - 64, 1)
        }
    }

    /// Its point in the web of descriptions.
    pub(crate) fn point(self) -> usize
        ensures is { result ≡ point self }
        ensures small { result < 2048 }
        ensures placed { Placed self }
    {
        self.point
    }
}
