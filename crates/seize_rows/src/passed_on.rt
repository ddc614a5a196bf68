//! The modules of the layers below, by the names under which `seize` passes them on.

use seize::machine::Machine;
use seize::thread_id::Thread;
use seize::tls::ThreadLocal;
use std::test::Fail;

#[test]
fn modules_of_the_layers_below(rt: HostRuntime) -> Result<(), Fail> {
    let first = Thread::new(0).expect(&rt, "a number with a place");
    let table: ThreadLocal<u64> = ThreadLocal::with_capacity(rt.alloc(), 0)?;
    assert_eq!(rt; *table.load(first)?, 0);
    let machine = Machine::new(rt.alloc(), 1, 0)?;
    assert!(rt; machine.quiet());
    Ok(())
}
