use link_chain::{Chain, Loose};
use std::alloc::{AllocError, Global};
use std::test::Fail;

// A chain of the numbers below a count, at most 1,000,000.
fn counted(alloc: Global, count: u32) -> Result<Chain<u32>, AllocError> {
    let mut chain = Chain::new(alloc);
    for item in 0..count {
        if chain.len() < 1_000_000 {
            let end = chain.len();
            chain.insert(end, Loose::new(alloc, item).map_err(|_| AllocError)?);
        }
    }
    Ok(chain)
}

// A long chain is let go by a loop: a call for each link would use up the stack.
#[test]
fn drops_a_long_chain(rt: HostRuntime) -> Result<(), Fail> {
    let chain = counted(rt.alloc(), 1_000_000)?;
    assert_eq!(rt; chain.len(), 1_000_000);
    Ok(())
}
