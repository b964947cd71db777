//! Whether a declaration is refused.
ghost use Rattle.std.specs.Prelude.{◌≡◌, ◌≤◌, ℕ, ◌∷◌, ◌++◌, [], List, length, IfOk, is_some, nat_le, not};
ghost use Rattle.rio_format.specs.{WrittenBytes.{length_limit, written_list}, Classes.{find_in}};
ghost use Rattle.rio_key.specs.declared.head.KeyHead.{KeyHead};
ghost use Rattle.rio_machine.specs.Limits.{is_too_long};
ghost use Rattle.rio_machine.specs.State.{State};
ghost use Rattle.rio_machine.specs.declared.command.Command.{Command};
ghost use Rattle.rio_machine.specs.declared.refusal.Refusal.{Refusal as Refusing};
ghost use Rattle.rio_model.specs.Declaring.{class_limit, declared, holds_itself, is_reserved_name, knows_all};
ghost use Rattle.rio_step.specs.Refusing.{refused_if};
ghost use Rattle.rio_judge.specs.Judging.{WorkCanBeDone};
ghost use Rattle.rio_judge.specs.Stops.{GoesByState, GoesByTests};

use crate::stop::Stop;
use crate::{NewClass, Work};
use rio_format::{ClassDef, Classes, LENGTH_LIMIT};
use rio_info::info_length_with;
use rio_machine::Refusal;
use rio_model::CLASS_LIMIT;
use rio_registry::{Registry, is_reserved_name};
use std::alloc::Global;

// The names of classes that come with the format are taken.
fn check_name(name: &[u8]) -> Result<(), Stop>
    ensures { GoesByTests (refused_if (is_reserved_name name.now) Refusing.BadName ∷ []) result }
{
    if is_reserved_name(name) {
        return Err(Stop::Refused(Refusal::BadName));
    }
    Ok(())
}

// The class with the versions of its bases, where it breaks no rule.
fn known_class(registry: &Registry, class: &ClassDef) -> Result<ClassDef, Stop>
    ensures class { IfOk result (λ known. known ≡ declared registry.now class.now) }
    ensures told { GoesByTests
        (refused_if (not (knows_all registry.now class.now)) Refusing.NoSuchClass
        ∷ refused_if (is_some (find_in registry.now class.now.name class.now.version))
        Refusing.SameVersion
        ∷ refused_if (holds_itself registry.now class.now) Refusing.HoldsItself ∷ []) result }
{
    Ok(registry.judge(class)?)
}

// How many bytes the class list has with the class.
fn list_length(alloc: Global, classes: &Classes, class: &ClassDef) -> Result<u32, Stop>
    ensures length { IfOk result (λ n. (start : ℕ) → n
        ≡ length (written_list start (classes.now ++ class.now ∷ []))) }
    ensures short { IfOk result (λ n. n ≤ length_limit) }
    ensures told { GoesByTests (refused_if
        (is_too_long (length (written_list 0 (classes.now ++ class.now ∷ []))))
        Refusing.TooLarge ∷ []) result }
{
    let length = info_length_with(alloc, classes, class)?;
    if length > LENGTH_LIMIT {
        return Err(Stop::Refused(Refusal::TooLarge));
    }
    Ok(length as u32)
}

// There is room for one class more.
fn check_count(classes: &Classes) -> Result<(), Stop>
    ensures { GoesByTests (refused_if (nat_le class_limit (length classes.now))
        Refusing.TooMany ∷ []) result }
{
    if classes.len() >= CLASS_LIMIT {
        return Err(Stop::Refused(Refusal::TooMany));
    }
    Ok(())
}

/// What a declaration of the class is to do, or the first refusal, in the order of their numbers.
pub(crate) fn class_work(alloc: Global, registry: &Registry, class: &ClassDef) -> Result<Work, Stop>
    ensures answers { (m : State) → m.classes ≡ registry.now
        → GoesByState m (Command.Class class.now) result }
    ensures sound { (heads : List KeyHead) → IfOk result (WorkCanBeDone registry.now heads
        (Command.Class class.now)) }
{
    check_name(class.name.as_slice())?;
    let class = known_class(registry, class)?;
    let length = list_length(alloc, registry.classes(), &class)?;
    check_count(registry.classes())?;
    Ok(Work::Class(NewClass { class, length }))
}
