use crate::ArrayVec;

#[test]
fn full_at_two(rt: HostRuntime) {
    let mut list: ArrayVec<u8, 2> = ArrayVec::new(0);
    assert_eq!(rt; list.len(), 0);
    assert_eq!(rt; list.push(7), Ok(()));
    assert_eq!(rt; list.push(8), Ok(()));
    assert_eq!(rt; list.push(9), Err(9));
    assert_eq!(rt; list.len(), 2);
    let items = list.as_slice();
    assert!(rt; items.len() == 2);
    assert_eq!(rt; items[0], 7);
    assert_eq!(rt; items[1], 8);
}
