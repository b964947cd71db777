//! The labels of leaves by their names.
ghost use Rattle.std.specs.Prelude.{◌≡◌, ◌+◌, ℕ, List, if◌then◌else◌, Some, IfOk, OnOk, OnErr};
ghost use Rattle.std.specs.Str.{bytes_eq};
ghost use Rattle.rio_format.specs.Index.{name_place};

use rio_num::{Name, NoMemory};
use std::alloc::Global;
use std::collections::{BTreeMap, VecDeque};
use std::marker::Model;

type LabelMap = BTreeMap<Vec<u8>, u32>;

/// The leaves that were met, by their names, with the labels of the pointers to them, the last one first.
#[derive(Drop)]
pub(crate) struct LeafLabels {
    alloc: Global,
    // All of them, the last one first.
    met: VecDeque<(Name, u32)>,
    // A name to the label of the last leaf of that name.
    labels: LabelMap,
}

impl Model for LeafLabels {
    ghost use Rattle.std.specs.Prelude.{ℕ, List};
    ghost use Rattle.rio_tree.specs.WrittenLabels.{LeadsToFirst};

    ghost Value = { List (List ℕ × ℕ) };

    ghost view = { λ leaves. leaves.met.items };

    ghost invariant = { λ leaves. LeadsToFirst leaves.labels leaves.met.items };
}

impl LeafLabels {
    ghost use Rattle.std.specs.Prelude.{[], ◌∷◌};
    ghost use Rattle.std.specs.Map.{lookup};

    /// No leaves.
    pub(crate) fn new(alloc: Global) -> LeafLabels
        ensures { result ≡ [] }
    {
        LeafLabels {
            alloc,
            met: VecDeque::new(alloc),
            labels: LabelMap::new(alloc),
        }
    }

    /// One more leaf of this name, to which a pointer with this label points.
    pub(crate) fn note(&mut self, name: Name, label: u32) -> Result<(), NoMemory>
        ensures { OnOk result (self.new ≡ (name, label) ∷ self.old) }
    {
        self.met.reserve(1)?;
        put_label(&mut self.labels, self.alloc, name.as_slice(), label)?;
        self.met.push_front((name, label))?;
        Ok(())
    }

    /// The label of the last leaf of the name, if there is one.
    pub(crate) fn label(&self, name: &[u8]) -> Option<u32>
        ensures { result ≡ lookup (bytes_eq name.now) self.now }
    {
        self.labels.get(name).copied()
    }
}

/// The label behind so many from this one on. A header with more than 2^32 labels has no room in memory.
pub(crate) fn label_behind(label: u32, taken: usize) -> Result<u32, NoMemory>
    ensures { IfOk result (λ next. next ≡ label + taken) }
{
    match u32::try_from(taken) {
        Ok(taken) => label.checked_add(taken).ok_or(NoMemory),
        Err(_) => Err(NoMemory),
    }
}

// The name leads to the label from now on.
fn put_label(labels: &mut LabelMap, alloc: Global, name: &[u8], label: u32) -> Result<(), NoMemory>
    ensures ok { OnOk result
        ((q : List ℕ) →
        name_place labels.new q
        ≡ (if bytes_eq q name.now then Some label else name_place labels.old q)) }
    ensures err { OnErr result
        ((q : List ℕ) → name_place labels.new q ≡ name_place labels.old q) }
{
    labels.insert(Vec::from_slice(alloc, name)?, label)?;
    Ok(())
}
