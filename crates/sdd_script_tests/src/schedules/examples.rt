//! Worked examples of the machine, played as schedules: each step beside its answer.

use sdd_script::schedules::play_steps;
use sdd_script_text::{Ended, Reader, Writer};
use std::alloc::{AllocError, Global};
use std::process::Abort;

/// Place 1 reads 0, is looked at while it is closed, and opens with 0 all the same. While it is open the count stays 1.
const A_GUARD_PUBLISHED_BEHIND_A_LOOK: &str = "\
register 0 | done
register 1 | done
read 1 | done
read 0 | done
publish 0 | opened 0 same reclaimed 0
lock 0 | done
look 0 | passed
publish 1 | opened 0 same reclaimed 0
advance 0 | raised
unlock 0 | done
close 0 | done
read 0 | done
publish 0 | opened 1 changed reclaimed 0
lock 0 | done
look 0 | not passed
advance 0 | not possible
unlock 0 | done";

/// Place 1 stalls between its read and its publish, while place 0 raises the count to 3. It opens with the 0 that it read,
/// and no look passes it until it closes.
const A_COUNT_READ_LONG_AGO: &str = "\
register 0 | done
register 1 | done
read 1 | done
read 0 | done
publish 0 | opened 0 same reclaimed 0
lock 0 | done
look 0 | passed
advance 0 | raised
unlock 0 | done
close 0 | done
read 0 | done
publish 0 | opened 1 changed reclaimed 0
lock 0 | done
look 0 | passed
advance 0 | raised
unlock 0 | done
close 0 | done
read 0 | done
publish 0 | opened 2 changed reclaimed 0
lock 0 | done
look 0 | passed
advance 0 | raised
unlock 0 | done
close 0 | done
publish 1 | opened 0 same reclaimed 0
read 0 | done
publish 0 | opened 3 changed reclaimed 0
lock 0 | done
look 0 | not passed
advance 0 | not possible
unlock 0 | done
close 0 | done
read 0 | done
publish 0 | opened 3 same reclaimed 0
lock 0 | done
look 0 | not passed
unlock 0 | done
close 0 | done
close 1 | done
read 0 | done
publish 0 | opened 3 same reclaimed 0
lock 0 | done
look 0 | passed
advance 0 | raised";

const AN_ITEM_IS_RETIRED_ONCE: &str = "\
register 0 | done
retire 0 0 | done
retire 0 0 | not possible";

const AN_ENDED_PLACE_IS_FREE_ONCE_ADOPTED: &str = "\
register 0 | done
retire 0 0 | done
end 0 | done
register 0 | not possible
register 1 | done
read 1 | done
publish 1 | opened 0 same reclaimed 0
lock 1 | done
adopt 1 | done
unlock 1 | done
close 1 | done
register 0 | done";

const NOTHING_IS_RETIRED_BETWEEN_A_READ_AND_ITS_PUBLISH: &str = "\
register 0 | done
register 1 | done
read 1 | done
publish 1 | opened 0 same reclaimed 0
lock 1 | done
look 1 | passed
advance 1 | raised
unlock 1 | done
close 1 | done
read 0 | done
read 1 | done
publish 1 | opened 1 changed reclaimed 0
lock 1 | done
look 1 | passed
advance 1 | raised
unlock 1 | done
close 1 | done
read 1 | done
publish 1 | opened 2 changed reclaimed 0
retire 0 0 | not possible
publish 0 | opened 1 changed reclaimed 0
retire 0 0 | done
lock 1 | done
look 1 | not passed
advance 1 | not possible";

const A_PLACE_THAT_OPENS_BEHIND_THE_LOOKS: &str = "\
register 0 | done
register 1 | done
read 0 | done
publish 0 | opened 0 same reclaimed 0
lock 0 | done
look 0 | passed
look 0 | passed
register 2 | done
read 2 | done
publish 2 | opened 0 same reclaimed 0
advance 0 | raised
unlock 0 | done
close 0 | done
read 0 | done
publish 0 | opened 1 changed reclaimed 0
lock 0 | done
look 0 | passed
look 0 | not passed
advance 0 | not possible";

const WHAT_IS_LEFT_BEHIND_AN_ADOPT: &str = "\
register 0 | done
register 1 | done
retire 1 0 | done
read 0 | done
publish 0 | opened 0 same reclaimed 0
lock 0 | done
adopt 0 | done
end 1 | done
look 0 | passed
advance 0 | raised
unlock 0 | done
close 0 | done
register 1 | not possible
read 0 | done
publish 0 | opened 1 changed reclaimed 0
lock 0 | done
adopt 0 | done
look 0 | passed
advance 0 | raised
unlock 0 | done
close 0 | done
read 0 | done
publish 0 | opened 2 changed reclaimed 0
lock 0 | done
adopt 0 | done
look 0 | passed
advance 0 | raised
unlock 0 | done
close 0 | done
read 0 | done
publish 0 | opened 3 changed reclaimed 0
lock 0 | done
adopt 0 | done
look 0 | passed
advance 0 | raised
unlock 0 | done
close 0 | done
read 0 | done
publish 0 | opened 4 changed reclaimed 1
lock 0 | done
adopt 0 | done
look 0 | passed
advance 0 | raised
unlock 0 | done
close 0 | done";

/// The other steps that are not possible, or whose places or items no step could have.
const STEPS_THAT_ARE_NOT_POSSIBLE: &str = "\
read 0 | not possible
end 0 | not possible
register 0 | done
register 0 | not possible
publish 0 | not possible
lock 0 | not possible
close 0 | not possible
retire 1 3 | not possible
read 0 | done
read 0 | not possible
close 0 | not possible
end 0 | not possible
publish 0 | opened 0 same reclaimed 0
end 0 | not possible
adopt 0 | not possible
look 0 | not possible
advance 0 | not possible
unlock 0 | not possible
lock 0 | done
lock 0 | not possible
close 0 | not possible
advance 0 | not possible
look 0 | passed
look 0 | not possible
adopt 0 | not possible
advance 0 | raised
advance 0 | not possible
unlock 0 | done
close 0 | done
end 0 | done";

/// Two items are retired at different counts, and go at the third change after that each.
const EACH_ITEM_HAS_ITS_OWN_CHANGES: &str = "\
register 0 | done
retire 0 2 | done
retire 0 0 | done
read 0 | done
publish 0 | opened 0 same reclaimed 0
lock 0 | done
advance 0 | raised
unlock 0 | done
close 0 | done
read 0 | done
publish 0 | opened 1 changed reclaimed 0
retire 0 1 | done
lock 0 | done
advance 0 | raised
unlock 0 | done
close 0 | done
read 0 | done
publish 0 | opened 2 changed reclaimed 0
lock 0 | done
advance 0 | raised
advance 0 | not possible
unlock 0 | done
lock 0 | done
advance 0 | not raised
unlock 0 | done
close 0 | done
read 0 | done
publish 0 | opened 3 changed reclaimed 2
lock 0 | done
advance 0 | raised
unlock 0 | done
close 0 | done
read 0 | done
publish 0 | opened 4 changed reclaimed 1
close 0 | done";

const EXAMPLES: [&str; 10] = [
    A_GUARD_PUBLISHED_BEHIND_A_LOOK,
    A_COUNT_READ_LONG_AGO,
    AN_ITEM_IS_RETIRED_ONCE,
    AN_ENDED_PLACE_IS_FREE_ONCE_ADOPTED,
    "",
    NOTHING_IS_RETIRED_BETWEEN_A_READ_AND_ITS_PUBLISH,
    A_PLACE_THAT_OPENS_BEHIND_THE_LOOKS,
    WHAT_IS_LEFT_BEHIND_AN_ADOPT,
    STEPS_THAT_ARE_NOT_POSSIBLE,
    EACH_ITEM_HAS_ITS_OWN_CHANGES,
];

/// The steps of an example as a schedule, and their answers.
fn parts(alloc: Global, example: &str) -> Result<(String, String), AllocError> {
    let mut steps = String::new(alloc);
    let mut answers = String::new(alloc);
    for line in example.lines() {
        if let Some((step, answer)) = line.split_once(" | ") {
            push_line(&mut steps, step)?;
            push_line(&mut answers, answer)?;
        }
    }
    Ok((steps, answers))
}

fn push_line(text: &mut String, line: &str) -> Result<(), AllocError> {
    text.push_str(line)?;
    text.push_str("\n")
}

fn is_answered(rt: &impl Abort, alloc: Global, example: &str) {
    let (steps, answers) = parts(alloc, example).expect(rt, "memory is there");
    let mut written = Vec::new(alloc);
    let mut reader = Reader::new(steps.as_bytes());
    let mut writer = Writer::new(&mut written);
    let ended = play_steps(alloc, &mut reader, &mut writer);
    assert_eq!(rt; ended, Ended::Played, "{example}");
    assert_eq!(rt;
        std::str::from_utf8(written.as_slice()).ok(),
        Some(answers.as_str()),
        "{example}"
    );
}

#[test]
fn each_step_is_answered(rt: HostRuntime) {
    for example in EXAMPLES {
        is_answered(&rt, rt.alloc(), example);
    }
}
