// Public calls that no program makes.
use bencode_wire::{Ben, Dictionary, canonical_bytes, put_field};
use core_functions::{arity_fits, knows};
use std::test::Fail;

#[test]
fn calls_that_no_program_makes(rt: HostRuntime) -> Result<(), Fail> {
    let mut fields = Dictionary::new(rt.alloc());
    for n in 1..3 {
        put_field(
            &mut fields,
            Vec::from_slice(rt.alloc(), b"a")?,
            Ben::Integer(n),
        )?;
    }
    let written = canonical_bytes(rt.alloc(), &Ben::Dictionary(fields))?;
    assert!(rt; written.as_slice() == b"d1:ai2ee".as_slice());
    assert!(rt; knows("assoc"));
    assert!(rt; !knows("deref"));
    assert!(rt; arity_fits("assoc", 3));
    assert!(rt; !arity_fits("assoc", 4));
    Ok(())
}
