// Rings whose nodes go from one to another.
use std::test::Fail;
use value_data::Value;
use version_rings::Rings;

fn integer(found: Option<&Value>) -> Option<i64> {
    match found {
        Some(Value::Int(number)) => Some(*number),
        _ => None,
    }
}

#[test]
fn a_new_ring_takes_the_node_of_a_released_one(rt: HostRuntime) -> Result<(), Fail> {
    let mut rings = Rings::new(rt.alloc());
    let p = rings.new_ring(Value::Int(1))?;
    let q = rings.new_ring(Value::Int(2))?;
    rings.push(p, 4, Value::Int(3), true)?;
    assert_eq!(rt; rings.slots(), 3);
    rings.release(q);
    let r = rings.new_ring(Value::Int(4))?;
    assert_eq!(rt; rings.slots(), 3);
    assert_eq!(rt; integer(rings.read_at(p, 3)), Some(1));
    assert_eq!(rt; integer(rings.read_at(p, 4)), Some(3));
    assert_eq!(rt; integer(rings.newest(r)), Some(4));
    Ok(())
}

// The upper halves of stamps are kept apart, and a node that is taken again has none.
#[test]
fn stamps_have_two_halves(rt: HostRuntime) -> Result<(), Fail> {
    let mut rings = Rings::new(rt.alloc());
    let p = rings.new_ring(Value::Int(1))?;
    rings.push(p, 1 << 64, Value::Int(2), true)?;
    rings.push(p, (1 << 64) + 1, Value::Int(3), true)?;
    assert_eq!(rt; integer(rings.read_at(p, (1 << 64) - 1)), Some(1));
    assert_eq!(rt; integer(rings.read_at(p, 1 << 64)), Some(2));
    assert_eq!(rt; integer(rings.read_at(p, u128::MAX)), Some(3));
    rings.release(p);
    let q = rings.new_ring(Value::Int(4))?;
    assert_eq!(rt; rings.slots(), 3);
    assert_eq!(rt; integer(rings.read_at(q, 0)), Some(4));
    Ok(())
}
