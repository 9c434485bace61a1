use flow_types::{Amounts, Memory, Needs, Pair, RawFile, RawFlow, RawRule, Rows, SizeBound, Text};
use rule_graph::fits_limits;
use std::alloc::{AllocError, Global};
use std::test::Fail;

// A list of one item.
fn one<T: Drop>(alloc: Global, item: T) -> Result<Rows<T>, Memory> {
    let mut rows = Rows::new(alloc);
    match rows.push(item) {
        Ok(()) => Ok(rows),
        Err(_) => Err(Memory),
    }
}

// A text of so many bytes.
fn long_text(alloc: Global, count: usize) -> Result<Text, AllocError> {
    Ok(Text::from_string("x".repeat(alloc, count)?))
}

// A flow of one rule with a command and a value of a variable of so many bytes, these needs, and
// this bound.
fn limited(
    alloc: Global,
    command: usize,
    value: usize,
    needs: Amounts,
    bytes: u64,
) -> Result<RawFlow, Fail> {
    let output = RawFile {
        local: Text::of(alloc, "a")?,
        remote: None,
    };
    let pair = Pair {
        name: Text::of(alloc, "N")?,
        value: long_text(alloc, value)?,
    };
    let rule = RawRule {
        place: 0,
        outputs: one(alloc, output)?,
        inputs: Rows::new(alloc),
        command: long_text(alloc, command)?,
        local: false,
        needs: Needs::Stated(needs),
        env: one(alloc, pair)?,
    };
    let bound = SizeBound {
        name: Text::of(alloc, "a")?,
        bytes,
    };
    Ok(RawFlow {
        rules: one(alloc, rule)?,
        keep: Rows::new(alloc),
        bounds: one(alloc, bound)?,
    })
}

fn amounts(cores: u32, memory: u32, disk: u32) -> Amounts {
    Amounts {
        cores,
        memory,
        disk,
    }
}

#[test]
fn a_flow_at_its_limits_fits_them(rt: HostRuntime) -> Result<(), Fail> {
    let most = 1_000_000_000;
    let cases = [
        (
            1_048_576,
            1_048_567,
            amounts(most, most, most),
            67_108_864,
            true,
        ),
        (1_048_577, 0, amounts(1, 1, 1), 1, false),
        (1, 1_048_568, amounts(1, 1, 1), 1, false),
        (1, 1, amounts(1_000_000_001, 1, 1), 1, false),
        (1, 1, amounts(1, 1_000_000_001, 1), 1, false),
        (1, 1, amounts(1, 1, 1_000_000_001), 1, false),
        (1, 1, amounts(1, 1, 1), 67_108_865, false),
    ];
    for (command, value, needs, bytes, expected) in cases {
        let flow = limited(rt.alloc(), command, value, needs, bytes)?;
        assert_eq!(rt; fits_limits(&flow), expected);
    }
    Ok(())
}
