use crate::Stack;

#[test]
fn last_in_first_out(rt: HostRuntime) {
    let mut slots = [0u16; 2];
    let mut stack = Stack::new(&mut slots);
    assert_eq!(rt; stack.push(7), Ok(()));
    assert_eq!(rt; stack.push(8), Ok(()));
    assert_eq!(rt; stack.push(9), Err(9));
    assert_eq!(rt; stack.replace_top(5), Ok(()));
    assert_eq!(rt; stack.pop(), Some(5));
    assert_eq!(rt; stack.top(), Some(7));
}
