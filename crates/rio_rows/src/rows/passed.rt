//! Objects and numbers that are passed over.
use rio_format::{Classes, ObjFault, ObjReader, Prim};
use rio_read::{pass_next, pass_number, pass_numbers};
use std::alloc::Global;

// A TObjString, which has the text `abc`, and one byte behind it.
static STRING: &[u8] = b"\x40\0\0\x10\0\x01\0\x01\0\0\0\0\0\0\0\0\x03abc\x07";

// The same, whose text is five bytes long.
static LONG_TEXT: &[u8] = b"\x40\0\0\x10\0\x01\0\x01\0\0\0\0\0\0\0\0\x05abc\x07";

// The place where reading stands behind the object, whose first byte has the place 100.
fn end_of(alloc: Global, bytes: &'static [u8], class: &[u8]) -> Result<u64, ObjFault> {
    if bytes.len() > 100 {
        return Err(ObjFault::NoMemory);
    }
    let classes = Classes::new(alloc);
    let mut reader = ObjReader::new(alloc, bytes, 100);
    pass_next(alloc, &classes, &mut reader, class)?;
    Ok(reader.place())
}

#[test]
fn passes_over_objects_and_numbers(rt: HostRuntime) {
    assert_eq!(rt; end_of(rt.alloc(), STRING, b"TObjString"), Ok(120));
    assert_eq!(rt;
        end_of(rt.alloc(), &STRING[..19], b"TObjString"),
        Err(ObjFault::BadCount { place: 100 })
    );
    assert_eq!(rt;
        end_of(rt.alloc(), LONG_TEXT, b"TObjString"),
        Err(ObjFault::Short {
            place: 116,
            wanted: 6
        })
    );
    let mut reader = ObjReader::new(rt.alloc(), b"\0\x01\0\0\0\x02\0\0\0\x03\0\0", 100);
    assert!(rt; pass_number(&mut reader, Prim::U16).is_ok());
    assert!(rt; pass_numbers(&mut reader, Prim::F32, 2).is_ok());
    assert_eq!(rt; reader.place(), 110);
    let mut again = ObjReader::new(rt.alloc(), b"\0\x01\0\0\0\x02\0\0\0\x03\0\0", 100);
    assert!(rt;
        matches!(
            pass_numbers(&mut again, Prim::I64, 3),
            Err(ObjFault::Short {
                place: 108,
                wanted: 8
            })
        )
    );
}
