//! The objects that are pointed to, by their labels.
ghost use Rattle.std.specs.Prelude.{◌≡◌, [], ◌∷◌, IfOk, OnOk};
ghost use Rattle.std.specs.List.{flat_map};
ghost use Rattle.std.specs.Option.{option_copied};
ghost use Rattle.rio_tree.specs.Labels.{label_in, labelled_in, labels_in, object_behind, or_labelled};
ghost use Rattle.rio_tree.specs.Tables.{labels_of};

use rio_format::{Part, Value};
use rio_num::NoMemory;
use std::alloc::Global;
use std::collections::HashMap;

/// The first object of each label.
#[derive(Drop)]
pub(crate) struct LabelTable<'a> {
    pub(crate) objects: HashMap<u32, &'a Value>,
}

impl<'a> LabelTable<'a> {
    /// The first object of each label within the value.
    pub(crate) fn of_value(alloc: Global, value: &'a Value) -> Result<LabelTable<'a>, NoMemory>
        ensures { IfOk result (λ table. labels_of table ≡ labels_in value.now) }
    {
        let mut table = LabelTable {
            objects: HashMap::new(alloc),
        };
        note_within(&mut table, value)?;
        Ok(table)
    }

    /// The object of the label.
    fn find(&self, label: u32) -> Option<&'a Value>
        ensures { option_copied result ≡ labels_of self.now label }
    {
        self.objects.get(&label).copied()
    }

    /// The object that a pointer leads to: the one that begins here, or the one of the label.
    pub(crate) fn object_behind(&self, pointer: &'a Value) -> Option<&'a Value>
        ensures { option_copied result ≡ object_behind (labels_of self.now) pointer.now }
    {
        match pointer {
            Value::Pointed { object, .. } => Some(object.get()),
            Value::Back(label) => self.find(*label),
            _ => None,
        }
    }

    // An object of the label, unless there is one.
    fn note(&mut self, label: u32, object: &'a Value) -> Result<(), NoMemory>
        ensures { OnOk result (labels_of self.new
            ≡ or_labelled (labels_of self.old) ((label, object.now) ∷ [])) }
    {
        if self.find(label).is_none() {
            self.objects.insert(label, object)?;
        }
        Ok(())
    }
}

#[cycle(labels)]
fn note_within<'a>(table: &mut LabelTable<'a>, value: &'a Value) -> Result<(), NoMemory>
    ensures { OnOk result (labels_of table.new
        ≡ or_labelled (labels_of table.old) (labelled_in value.now)) }
{
    match value {
        Value::List(items) => note_items(table, items.as_slice()),
        Value::Object { parts, .. } => note_parts(table, parts.as_slice()),
        Value::Pointed { label, object } => {
            table.note(*label, object.get())?;
            note_within(table, object.get())
        }
        _ => Ok(()),
    }
}

#[cycle(labels)]
fn note_items<'a>(table: &mut LabelTable<'a>, items: &'a [Value]) -> Result<(), NoMemory>
    ensures { OnOk result (labels_of table.new
        ≡ or_labelled (labels_of table.old) (flat_map labelled_in items.now)) }
{
    for item in items {
        note_within(table, item)?;
    }
    Ok(())
}

#[cycle(labels)]
fn note_parts<'a>(table: &mut LabelTable<'a>, parts: &'a [Part]) -> Result<(), NoMemory>
    ensures { OnOk result (labels_of table.new
        ≡ or_labelled (labels_of table.old) (flat_map (λ p. labelled_in p.value) parts.now)) }
{
    for part in parts {
        note_within(table, &part.value)?;
    }
    Ok(())
}

/// The label of the object that a pointer leads to.
pub(crate) fn label_in(pointer: &Value) -> Option<u32>
    ensures { result ≡ label_in pointer.now }
{
    match pointer {
        Value::Pointed { label, .. } => Some(*label),
        Value::Back(label) => Some(*label),
        _ => None,
    }
}
