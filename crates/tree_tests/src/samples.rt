use msg_tree::{Counts, counts, names};
use std::test::*;
use tree_samples::sample;

#[test]
fn one_of_each(rt: HostRuntime) -> Result<(), Fail> {
    let tree = sample(rt.alloc(), 1)?;
    let expected = Counts {
        messages: 2,
        recipients: 1,
        attachments: 2,
        properties: 8,
        depth: 1,
    };
    assert_eq!(rt; counts(&tree), expected);
    let names = names(rt.alloc(), &tree)?;
    assert_eq!(rt; names.len(), 1);
    Ok(())
}
