//! The labels of a switch, compared with its value.

ghost use Rattle.std.specs.Prelude.{◌≡◌, ◌++◌, List};
ghost use Rattle.c_meaning_spec.specs.Telling.{telling};
ghost use Rattle.c_meaning_spec.specs.Statement as meant;
ghost use Rattle.c_meaning_spec.specs.Statement.{Target, after_switch, bodies, leading, run_from};
ghost use Rattle.c_meaning.specs.inside.Labels.{goes_on, found};
ghost use Rattle.c_meaning.specs.inside.View.{view};

use crate::store::Store;
use c_meaning_spec::Signal;
use c_tree::{TypedProgram, TypedSection};

/// What comparing labels comes to: one of them is the one, no step was left, or none is, and these sections
/// are run where none behind them is.
#[derive(Clone, Copy)]
pub enum Compared<'a> {
    Found,
    Spent,
    Passed(&'a [TypedSection]),
}

impl<'a> Store<'a> {
    // A label of the first of the sections here: one of a case costs a step.
    fn compare_label<'s>(
        &mut self,
        program: &TypedProgram,
        w: u64,
        label: Option<u64>,
        here: &'s [TypedSection],
        other: &'s [TypedSection],
    ) -> Compared<'s>
        ensures { (ts : List Target)
            → goes_on program.now result w ts (bodies here.now) (view self.new)
            ≡ meant.compared_by w label (run_from (telling program.now) (bodies here.now))
            (meant.compared (telling program.now) w ts (bodies other.now))
            (meant.compared (telling program.now) w ts (bodies here.now)) (view self.old) }
    {
        match label {
            None => Compared::Passed(here),
            Some(n) => {
                if self.stock == 0 {
                    Compared::Spent
                } else {
                    self.stock -= 1;
                    if w == n {
                        Compared::Found
                    } else {
                        Compared::Passed(other)
                    }
                }
            }
        }
    }

    // The labels of the first of the sections here, up to one that is equal to the word.
    fn compare<'s>(
        &mut self,
        program: &TypedProgram,
        w: u64,
        labels: &[Option<u64>],
        here: &'s [TypedSection],
        other: &'s [TypedSection],
    ) -> Compared<'s>
        ensures { (ts : List Target)
            → goes_on program.now result w ts (bodies here.now) (view self.new)
            ≡ meant.compared (telling program.now) w (leading labels.now (bodies here.now) ++ ts)
            (bodies other.now) (view self.old) }
    {
        let mut rest = labels;
        let mut other = other;
        while let Some((label, more)) = rest.split_first() {
            match self.compare_label(program, w, *label, here, other) {
                Compared::Passed(next) => {
                    other = next;
                    rest = more;
                }
                Compared::Found => return Compared::Found,
                Compared::Spent => return Compared::Spent,
            }
        }
        Compared::Passed(other)
    }

    /// The sections whose statements are run where the word is that of a switch: those from the label on that
    /// is equal to it, those from `default` on, or none.
    pub fn find_label<'s>(
        &mut self,
        program: &TypedProgram,
        sections: &'s [TypedSection],
        w: u64,
    ) -> Compared<'s>
        ensures { found program.now result (view self.new)
            ≡ after_switch (telling program.now) sections.now (Signal.Value w) (view self.old) }
    {
        let mut here = sections;
        let mut other: &'s [TypedSection] = &[];
        while let Some((section, behind)) = here.split_first() {
            match self.compare(program, w, section.labels.as_slice(), here, other) {
                Compared::Passed(next) => {
                    other = next;
                    here = behind;
                }
                Compared::Found => return Compared::Passed(here),
                Compared::Spent => return Compared::Spent,
            }
        }
        Compared::Passed(other)
    }
}
