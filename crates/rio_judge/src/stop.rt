//! Why a judgement stops.
use rio_machine::Refusal;
use rio_num::NoMemory;
use rio_registry::DeclareFault;
use rio_valtext::ResolveFault;

/// Why no work is found for a command.
#[derive(Drop)]
pub(crate) enum Stop {
    Refused(Refusal),
    NoMemory,
}

impl From<NoMemory> for Stop {
    ghost use Rattle.std.specs.Prelude.{◌≡◌};
    ghost use Rattle.rio_judge.specs.declared.stop.Stop.TheVariants.{NoMemory as OutOfMemory};

    ghost from_gives = { λ _ stop. stop ≡ OutOfMemory };

    fn from(_e: NoMemory) -> Stop {
        Stop::NoMemory
    }
}

impl From<ResolveFault> for Stop {
    ghost use Rattle.std.specs.Prelude.{◌≡◌};
    ghost use Rattle.rio_judge.specs.Stops.{stop_of};

    ghost from_gives = { λ fault stop. stop ≡ stop_of fault };

    fn from(fault: ResolveFault) -> Stop {
        match fault {
            ResolveFault::NoSuchClass => Stop::Refused(Refusal::NoSuchClass),
            ResolveFault::NoMemory => Stop::NoMemory,
        }
    }
}

impl From<DeclareFault> for Stop {
    ghost use Rattle.std.specs.Prelude.{◌≡◌};
    ghost use Rattle.rio_judge.specs.Stops.{stop_of_declaration};

    ghost from_gives = { λ fault stop. stop ≡ stop_of_declaration fault };

    fn from(fault: DeclareFault) -> Stop {
        match fault {
            DeclareFault::NoSuchClass => Stop::Refused(Refusal::NoSuchClass),
            DeclareFault::SameVersion => Stop::Refused(Refusal::SameVersion),
            DeclareFault::HoldsItself => Stop::Refused(Refusal::HoldsItself),
            DeclareFault::TooMany => Stop::Refused(Refusal::TooMany),
            DeclareFault::NoMemory => Stop::NoMemory,
        }
    }
}
