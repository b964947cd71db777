//! The form in which the rows of a tree are asked for.
use rio_format::Base;
use std::marker::Model;

/// With the objects of a class in a version, or with all as they are; and as CSV, or as lists with their numbers.
#[derive(Drop)]
pub(crate) struct RowForm<'a> {
    pub(crate) class: Option<&'a Base>,
    pub(crate) csv: bool,
}

impl<'a> Model for RowForm<'a> {
    ghost use Rattle.std.specs.Option.{option_copied};
    ghost use Rattle.rio_report.specs.RowForms.{RowForm as Form};

    ghost Value = { Form };

    ghost view = { λ form. record { class = option_copied form.class; csv = form.csv } };
}

impl<'a> RowForm<'a> {
    ghost use Rattle.std.specs.Prelude.{◌≡◌};
    ghost use Rattle.std.specs.Option.{option_copied};

    /// The class that is asked, in its version, if one is.
    pub(crate) fn class(&self) -> Option<&'a Base>
        ensures { option_copied result ≡ self.now.class }
    {
        self.class
    }
}
