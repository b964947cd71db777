//! Objects of the small built-in classes are written: TObject, TNamed, TObjString and the TArrays.
ghost use Rattle.std.specs.Prelude.{◌≤◌, [], List, length};
ghost use Rattle.rio_format.specs.{Writer.{Puts}, Written.{written_form}, declared.class.ClassDef.{ClassDef as Class}};
ghost use Rattle.rio_write.specs.Small.{IsSmallObject, own_writing};
ghost use Rattle.rio_write.specs.Writing.{Writes};

use crate::write::write_object;
use rio_format::{Classes, ObjWriter, Value};
use rio_num::NoMemory;
use std::alloc::Global;

/// The bytes of a TObject, TNamed, TObjString or TArray are put at the end. The value is an object of one
/// of these classes that fits it over the empty class list, or the same with bit 4 of fBits and an fPid, of
/// at most 16,777,216 bytes; by `small_builtins_are_alike` an object in version 1 fits there if it fits over
/// another list. Where memory runs out, nothing is put.
pub fn write_builtin(alloc: Global, writer: &mut ObjWriter, value: &Value) -> Result<(), NoMemory>
    requires value { IsSmallObject value.now }
    requires size { length (written_form [] 0 value.now) ≤ 16777216 }
    // The written form is put at the end, or memory ran out and nothing changed.
    ensures exact { Puts (written_form [] 0 value.now) result writer.old writer.new }
    // It is what is written for the object there, whatever other classes there are.
    ensures anywhere { (classes : List Class)
        → Writes (own_writing classes value.now) result writer.old writer.new }
{
    let bytes = write_object(alloc, &Classes::new(alloc), value, 0)?;
    writer.put_bytes(bytes.as_slice())
}
