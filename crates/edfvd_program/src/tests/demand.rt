//! Sets with constrained deadlines under plain EDF.
use super::DEMAND;
use super::outside::{Case, first_wrong};

const COUNTEREXAMPLE: &str = "not schedulable: demand 4 in length 3
release a 1 at 0
release b 1 at 0
tick 0 a 1
tick 1 b 1
tick 2 b 1
late b 1
";

static CASES: &[Case] = &[
    (
        DEMAND,
        "task,period,deadline,budget\na,4,2,1\nb,6,3,2\n",
        "",
        0,
        "schedulable, demand checked to 12\n",
    ),
    (
        DEMAND,
        "task,period,deadline,budget\na,4,2,1\nb,6,3,3\n",
        "",
        10,
        COUNTEREXAMPLE,
    ),
    (
        DEMAND,
        "task,period,deadline,budget\na,4,5,1\n",
        "",
        11,
        "demand file line 2: deadline after period\n",
    ),
    (
        DEMAND,
        "task,period,deadline,budget\na,4,4,1\na,4,4,1\n",
        "",
        11,
        "demand file line 3: name used before\n",
    ),
    (
        DEMAND,
        "task,period,deadline,budget\n",
        "",
        11,
        "demand file line 1: no tasks\n",
    ),
    (
        DEMAND,
        "",
        "",
        11,
        "demand file line 1: header is not task,period,deadline,budget\n",
    ),
];

#[test]
fn demand_sets_are_tested_and_refuted_or_refused(rt: HostRuntime) {
    assert_eq!(rt; first_wrong(&rt, rt.alloc(), CASES), None);
}
