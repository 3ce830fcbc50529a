use postpone_filter::Order;
use std::alloc::Global;
use std::process::Abort;
use std::test::Fail;

/// Writes all that can leave now.
fn drain(order: &mut Order, out: &mut Vec<u8>) -> Result<(), Fail> {
    for _ in 0..10_000 {
        let front = order.front();
        let count = front.len();
        if count == 0 {
            break;
        }
        out.extend_from_slice(front)?;
        order.used(count);
    }
    Ok(())
}

fn child(rt: &impl Abort, alloc: Global, order: &mut Order, parent: u32) -> Result<u32, Fail> {
    assert!(rt; order.is_open(parent));
    Ok(order.add_child(alloc, parent)?)
}

#[test]
fn parts_of_a_page_leave_in_its_written_order(rt: HostRuntime) -> Result<(), Fail> {
    // A page `A` part `C` part `E`, whose second part is there first.
    let mut order = Order::new(rt.alloc())?;
    let mut out = Vec::new(rt.alloc());
    assert_eq!(rt; order.append(0, b"A")?, 1);
    let first = child(&rt, rt.alloc(), &mut order, 0)?;
    assert_eq!(rt; order.append(0, b"C")?, 1);
    let second = child(&rt, rt.alloc(), &mut order, 0)?;
    assert_eq!(rt; order.append(0, b"E")?, 1);
    order.end(0);
    assert_eq!(rt; order.append(second, b"D")?, 1);
    order.end(second);
    assert!(rt; order.is_active(0));
    drain(&mut order, &mut out)?;
    assert_eq!(rt; out.as_slice(), b"A".as_slice());
    assert!(rt; order.is_active(first));
    assert_eq!(rt; order.append(first, b"B")?, 1);
    order.end(first);
    drain(&mut order, &mut out)?;
    assert_eq!(rt; out.as_slice(), b"ABCDE".as_slice());
    for id in 0..3 {
        assert!(rt; !order.is_active(id));
        assert!(rt; !order.has_buffer(id));
        assert_eq!(rt; order.append(id, b"x")?, 0);
    }
    Ok(())
}

#[test]
fn a_thousand_parts_end_in_reverse_order(rt: HostRuntime) -> Result<(), Fail> {
    let mut order = Order::new(rt.alloc())?;
    let mut out = Vec::new(rt.alloc());
    let mut expected = Vec::new(rt.alloc());
    for number in 0..1000u32 {
        let byte = (number % 251) as u8;
        expected.extend_from_slice(&[byte, 255, byte, byte])?;
        assert_eq!(rt; order.append(0, &[byte, 255])?, 2);
        assert_eq!(rt; child(&rt, rt.alloc(), &mut order, 0)?, number + 1);
    }
    order.end(0);
    for number in 0..1000u32 {
        let byte = ((999 - number) % 251) as u8;
        assert_eq!(rt; order.append(1000 - number, &[byte, byte])?, 2);
        order.end(1000 - number);
    }
    drain(&mut order, &mut out)?;
    assert_eq!(rt; out.len(), 4000);
    assert!(rt; out.as_slice() == expected.as_slice());
    Ok(())
}
