//! The declared classes.
use crate::judge::{declare_fault, rule_fault};
use crate::newest::with_newest_bases;
use rio_format::{ClassDef, Classes};
use rio_model::DeclareFault;
use std::alloc::Global;
use std::marker::Model;

/// The declared classes, in order of declaration.
#[derive(Debug, Drop)]
pub struct Registry {
    classes: Classes,
}

impl Model for Registry {
    ghost use Rattle.std.specs.Prelude.{List};
    ghost use Rattle.rio_format.specs.declared.class.ClassDef.{ClassDef as Class};
    ghost use Rattle.rio_registry.specs.Fronts.{AreClosed};

    ghost Value = { List Class };

    ghost view = { λ registry. registry.classes };

    ghost invariant = { λ registry. AreClosed registry.classes };
}

impl Registry {
    ghost use Rattle.std.specs.Prelude.{◌≡◌, ◌<◌, ◌-◌, [], ◌∷◌, ◌++◌, length, take, None, Some, IfOk, OnOk, OnErr};
    ghost use Rattle.rio_num.specs.Answers.{TellsUnless};
    ghost use Rattle.rio_model.specs.Declaring.{declare_fault, declared, rule_fault};

    /// No classes.
    pub fn new(alloc: Global) -> Registry
        ensures { result ≡ [] }
    {
        Registry {
            classes: Classes::new(alloc),
        }
    }

    /// The declared classes, in order of declaration.
    pub fn classes(&self) -> &Classes
        ensures { result.now ≡ self.now }
    {
        &self.classes
    }

    /// Puts a class at the end, each of its bases in the greatest version that is declared so far, and in version 1
    /// where it is a built-in class. It is refused, and dropped, for the first of these faults:
    ///
    /// - NoSuchClass: a base is neither declared nor TObject or TNamed; a member by value isn't of a declared class;
    ///   a pointer is to a class that is neither declared nor TObject, TNamed, TObjString, TList or TObjArray. The
    ///   name of the class itself counts as declared.
    /// - SameVersion: a class of its name and version is declared.
    /// - HoldsItself: it would reach its own name through bases and members by value, over all versions of all classes.
    /// - TooMany: 4,096 classes are declared.
    ///
    /// Where an earlier version of the class's name is declared, the classes that it reaches are followed, each once. So
    /// declaring takes about as long as the class and what it reaches then.
    pub fn declare(&mut self, class: ClassDef) -> Result<(), DeclareFault>
        ensures ok { OnOk result (declare_fault self.old class ≡ None) }
        ensures grows { OnOk result (self.new ≡ self.old ++ declared self.old class ∷ []) }
        ensures err { OnErr result (self.new ≡ self.old) }
        ensures cause { TellsUnless DeclareFault.NoMemory
            (λ e. declare_fault self.old class ≡ Some e) result }
    {
        if let Some(fault) = declare_fault(&self.classes, &class)? {
            return Err(fault);
        }
        let class = with_newest_bases(&self.classes, class)?;
        self.classes.push(class)?;
        Ok(())
    }

    /// The class that `declare` would add, or the first of NoSuchClass, SameVersion and HoldsItself that it breaks.
    /// Nothing is declared, and it doesn't matter how many classes are declared.
    pub fn judge(&self, class: &ClassDef) -> Result<ClassDef, DeclareFault>
        ensures ok { OnOk result (rule_fault self.now class.now ≡ None) }
        ensures added { IfOk result (λ added. added ≡ declared self.now class.now) }
        ensures cause { TellsUnless DeclareFault.NoMemory
            (λ e. rule_fault self.now class.now ≡ Some e) result }
    {
        if let Some(fault) = rule_fault(&self.classes, class)? {
            return Err(fault);
        }
        Ok(with_newest_bases(&self.classes, class.copy()?)?)
    }

    /// Takes the last class out. This takes no memory.
    pub fn forget_last(&mut self)
        requires { 0 < length self.old }
        ensures { self.new ≡ take (length self.old - 1) self.old }
    {
        self.classes.remove_last();
    }
}
