//! Parts of objects and items of lists.
ghost use Rattle.std.specs.Prelude.{◌≡◌, [], ◌∷◌, IfOk};
ghost use Rattle.rio_num.specs.At.{GoesOn};
ghost use Rattle.rio_format.specs.{Accessors.{number_in}, Frames.{ReadsAs}, declared.value.Value.{out-Value, Text, List as Listing}};
ghost use Rattle.rio_num.specs.Meanings.{read};
ghost use Rattle.rio_read.specs.Members.{counter_part};

use rio_format::{Counters, ObjFault, ObjReader, Part, Value, Values};
use rio_num::{Name, NoMemory};
use std::alloc::Global;

/// An item of a TList: a pointer and an option.
pub(crate) fn link(alloc: Global, pointer: Value, option: Name) -> Result<Value, NoMemory>
    ensures { IfOk result (λ v. v ≡ Listing (pointer ∷ Text option ∷ [])) }
{
    let mut pair = Values::new(alloc);
    pair.push(pointer)?;
    pair.push(Value::Text(option))?;
    Ok(Value::List(pair))
}

/// A counter of this name, which counts from then on.
#[tactic(auto, unfolding(crate::specs::Members::counter_part, rio_format::specs::Objects::number_value))]
pub(crate) fn read_counter<'a>(
    reader: &mut ObjReader,
    name: &'a Name,
    counters: &mut Counters<'a>,
) -> Result<Part, ObjFault>
    ensures exact { ReadsAs (λ x. x) result (read (counter_part name.now) reader.old) reader.new }
    ensures counters { IfOk result (λ p. counters.new
        ≡ (name.now, number_in (out-Value p.value)) ∷ counters.old) }
    ensures goes { GoesOn reader.old.at reader.new.at }
{
    let said = reader.take_u32()?.cast_signed();
    counters.note(name.as_slice(), said)?;
    Ok(Part {
        name: name.copy()?,
        value: Value::Int(i128::from(said)),
    })
}
