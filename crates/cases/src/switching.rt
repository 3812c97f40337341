// One router of the ring, node 0, step by step, when the link 0-1 fails.
use crate::networks::{FAILED, RING, router_of};
use router::RouterError;
use std::test::Fail;
use types::{Message, NodeId, Refusal, Switched};

enum Step {
    Hear { from: u8, message: Message },
    Switch(u8),
}

// After the step: its answer; how many messages were said in all; for which destinations it may switch.
struct Case {
    name: &'static str,
    step: Step,
    answer: Result<(), RouterError>,
    said: usize,
    may: [bool; 4],
}

const SWITCHED: Message = Message::Switched(Switched {
    from: NodeId(3),
    destination: NodeId(1),
    link: FAILED,
});

const CASES: [Case; 9] = [
    Case {
        name: "it hears of the failure, tells node 3, and waits for it",
        step: Step::Hear {
            from: 3,
            message: Message::LinkDown(FAILED),
        },
        answer: Ok(()),
        said: 1,
        may: [true, false, true, true],
    },
    Case {
        name: "it may not switch yet",
        step: Step::Switch(1),
        answer: Ok(()),
        said: 1,
        may: [true, false, true, true],
    },
    Case {
        name: "its old next hop lies over the failed link",
        step: Step::Switch(2),
        answer: Ok(()),
        said: 1,
        may: [true, false, false, true],
    },
    Case {
        name: "a message that comes from another",
        step: Step::Hear {
            from: 1,
            message: SWITCHED,
        },
        answer: Err(RouterError::Refused(Refusal::NotPending)),
        said: 1,
        may: [true, false, false, true],
    },
    Case {
        name: "it no longer waits",
        step: Step::Hear {
            from: 3,
            message: SWITCHED,
        },
        answer: Ok(()),
        said: 1,
        may: [true, true, false, true],
    },
    Case {
        name: "the next destination",
        step: Step::Switch(1),
        answer: Ok(()),
        said: 1,
        may: [true, false, false, true],
    },
    Case {
        name: "the next",
        step: Step::Switch(0),
        answer: Ok(()),
        said: 1,
        may: [false, false, false, true],
    },
    Case {
        name: "with the last the link is taken out",
        step: Step::Switch(3),
        answer: Ok(()),
        said: 1,
        may: [false, false, false, false],
    },
    Case {
        name: "a repeat says nothing",
        step: Step::Hear {
            from: 3,
            message: Message::LinkDown(FAILED),
        },
        answer: Ok(()),
        said: 1,
        may: [false, false, false, false],
    },
];

#[test]
fn switched(rt: HostRuntime) -> Result<(), Fail> {
    let mut router = router_of(rt.alloc(), RING, NodeId(0))?;
    let mut said = Vec::new(rt.alloc());
    for case in CASES.iter() {
        let answer = match case.step {
            Step::Hear { from, message } => router.hear(NodeId(from), message, &mut said),
            Step::Switch(destination) => {
                router
                    .switch(NodeId(destination), &mut said)
                    .map_err(RouterError::Memory)
            }
        };
        let may = [0, 1, 2, 3].map(|d| router.may_switch(NodeId(d)));
        assert_eq!(rt;
            (answer, said.len(), may),
            (case.answer, case.said, case.may),
            "{}",
            case.name
        );
    }
    assert_eq!(rt; router.link_cost(NodeId(0), NodeId(1)), None);
    Ok(())
}
