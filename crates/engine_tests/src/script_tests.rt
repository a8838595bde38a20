//! Whole scripts over worn locks.

use crate::desk::{Jobs, settings};
use crate::steps::Step::Script;
use crate::steps::plays;
use folding_tree::FoldingTree;
use job_laws::CountMeter;
use jobs_basic::Count;
use std::test::Fail;

type Counting = Count<CountMeter>;

const SCRIPT: &str = "bucket 2
a b a
b
bucket 1
c
run
bucket 1
a
drop 1
run
late 0 2
a
c c
bucket 0
run
drop 3
run
";

const ANSWERS: &str = "# run 1 keys 3
a\t2
b\t2
c\t1
# run 2 keys 2
a\t1
c\t1
# run 3 keys 2
a\t2
c\t3
# run 4 keys 0
";

// Locks are fresh, worn after one turn, or worn from the start.
#[test]
fn a_script_of_buckets_through_worn_locks(rt: HostRuntime) -> Result<(), Fail> {
    for start in [0, (1 << 62) - 1, 1 << 62] {
        let went = plays::<Counting, FoldingTree<Counting>, HostRuntime>(
            &rt,
            rt.alloc(),
            start,
            Jobs::new(rt.alloc(), Count::new(), Count::new())?,
            settings(2, 2, 1, 1),
            &[Script(SCRIPT, ANSWERS)],
        )?;
        assert_eq!(rt; went, 1, "from {start}");
    }
    Ok(())
}
