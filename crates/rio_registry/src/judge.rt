//! The first rule that a declaration breaks.
ghost use Rattle.std.specs.Prelude.{◌≡◌, IfOk};
ghost use Rattle.rio_model.specs.Declaring.{IsClosed, declare_fault, limit_fault, rule_fault};

use crate::names::knows_all;
use crate::reach::holds_itself;
use rio_format::{ClassDef, Classes};
use rio_model::{CLASS_LIMIT, DeclareFault};
use rio_num::NoMemory;

/// The first rule about classes that the declaration breaks, if it breaks one.
pub(crate) fn rule_fault(
    classes: &Classes,
    class: &ClassDef,
) -> Result<Option<DeclareFault>, NoMemory>
    requires { IsClosed classes.now }
    ensures { IfOk result (λ fault. fault ≡ rule_fault classes.now class.now) }
{
    if !knows_all(classes, class) {
        return Ok(Some(DeclareFault::NoSuchClass));
    }
    if classes.find(class.name.as_slice(), class.version).is_some() {
        return Ok(Some(DeclareFault::SameVersion));
    }
    if holds_itself(classes, class)? {
        return Ok(Some(DeclareFault::HoldsItself));
    }
    Ok(None)
}

fn limit_fault(classes: &Classes) -> Option<DeclareFault>
    ensures { result ≡ limit_fault classes.now }
{
    if classes.len() >= CLASS_LIMIT {
        Some(DeclareFault::TooMany)
    } else {
        None
    }
}

/// The first fault of the declaration, if it has one.
pub(crate) fn declare_fault(
    classes: &Classes,
    class: &ClassDef,
) -> Result<Option<DeclareFault>, NoMemory>
    requires { IsClosed classes.now }
    ensures { IfOk result (λ fault. fault ≡ declare_fault classes.now class.now) }
{
    match rule_fault(classes, class)? {
        Some(fault) => Ok(Some(fault)),
        None => Ok(limit_fault(classes)),
    }
}
