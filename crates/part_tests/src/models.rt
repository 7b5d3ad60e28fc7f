//! Steps worked by an independent model of the table.

#![tactic(auto, using(crate::proofs::Inputs::few_inputs))]

ghost use Rattle.std.specs.Prelude.{◌≡◌, ◌≤◌, length};
ghost use Rattle.fixed_models.specs.Domains.{IsInput};

use dcp_types::{DataType, FaultCode};
use fixed_models::{Kind, Model, has_ports};
use std::alloc::Global;
use std::test::Fail;

const KINDS: [Kind; 14] = [
    Kind::Const,
    Kind::Ramp,
    Kind::Counter,
    Kind::Gain,
    Kind::Sum,
    Kind::Integrator,
    Kind::Lag,
    Kind::Delay,
    Kind::Limiter,
    Kind::Deadband,
    Kind::Divider,
    Kind::Oscillator,
    Kind::Tank,
    Kind::Switch,
];

/// What is done with a model, the model, and what comes of each act. A model is a kind with its
/// parameters, the types of its outputs, the micro steps, its inputs (a third one is 2), and the index
/// and the value of a change. The acts are, by their letters: `s` a step, and then the first output; `S`
/// a step, and then the second output; `o` and `O` these outputs alone; `r` a restart, and then the
/// first output; `c` the change, and then the first output. Behind `!` stands the code of a fault; 0 is
/// a refusal of the parameters. `model ports` tells the kind's word, and with how many inputs and
/// outputs it goes.
pub const MODELS: &str = "\
model osssrsss|const -7/int64/1/0|-7 -7 -7 -7 -7 -7 -7 -7 
model osssrsss|ramp 5 -3/int64/1/0|5 2 -1 -4 5 2 -1 -4 
model osssrsss|ramp 9223372036854775806 1/int64/1/0|9223372036854775806 9223372036854775807 !32 !32 9223372036854775806 9223372036854775807 !32 !32 
model osssrsss|ramp 0 1/int64/1000/0|0 1000 2000 3000 0 1000 2000 3000 
model osssrsss|counter 3/int64/1/0|0 1 2 0 0 1 2 0 
model osssrsss|counter 7/int64/10/0|0 3 6 2 0 3 6 2 
model osssrsss|gain -1/int64/1/1|0 -1 -1 -1 0 -1 -1 -1 
model osssrsss|gain -65536/int64/1/-9223372036854775807|0 9223372036854775807 9223372036854775807 9223372036854775807 0 9223372036854775807 9223372036854775807 9223372036854775807 
model osssrsss|gain 9223372036854775807/int64/1/65537|0 !32 !32 !32 0 !32 !32 !32 
model osssrsss|sum/int64/1/-4|0 -3 -3 -3 0 -3 -3 -3 
model osssrsss|integrator 10 32768/int64/1/-3|10 8 6 4 10 8 6 4 
model osssrsss|integrator -9223372036854775808 65536/int64/1/-1|-9223372036854775808 !32 !32 !32 -9223372036854775808 !32 !32 !32 
model osssrsss|lag -1 1/int64/1/0|-1 -1 -1 -1 -1 -1 -1 -1 
model osssrsss|lag -9223372036854775808 65536/int64/1/9223372036854775807|-9223372036854775808 9223372036854775807 9223372036854775807 9223372036854775807 -9223372036854775808 9223372036854775807 9223372036854775807 9223372036854775807 
model osssrsss|delay 7 2/int64/1/-9|7 7 -9 -9 7 7 -9 -9 
model osssrsss|delay 7 5/int64/3/3|7 7 3 3 7 7 3 3 
model osssrsss|limiter 3 9/int64/1/-2|3 3 3 3 3 3 3 3 
model osssrsss|limiter -9 -3/int64/1/50|-3 -3 -3 -3 -3 -3 -3 -3 
model osssrsss|deadband 5/int64/1/-8|0 -3 -3 -3 0 -3 -3 -3 
model osssrsss|deadband 5/int64/1/-5|0 0 0 0 0 0 0 0 
model osssrsss|divider -3/int64/1/2|0 -98304 -98304 -98304 0 -98304 -98304 -98304 
model osssrsss|divider 1/int64/1/-3|0 -21846 -21846 -21846 0 -21846 -21846 -21846 
model osssrsss|divider 1/int64/1/0|0 !33 !33 !33 0 !33 !33 !33 
model osssrsss|divider -9223372036854775808/int64/1/-1|0 !32 !32 !32 0 !32 !32 !32 
model osssrsss|oscillator 1000 0 6554 6554/int64 int64/1/0|1000 1000 989 969 1000 1000 989 969 
model osssrsss|oscillator -1000 7 65536 65536/int64 int64/2/0|-1000 7 993 -1000 -1000 7 993 -1000 
model osssrsss|tank 10 65536 6554/int64 int64/1/-3|10 6 3 0 10 6 3 0 
model osssrsss|tank 1 -1 0/int64 int64/1/5|1 0 0 0 1 0 0 0 
model osssrsss|switch 5/int64/1/5|0 -1 -1 -1 0 -1 -1 -1 
model osssrsss|switch 6/int64/1/5|0 2 2 2 0 2 2 2 
model osssrsss|gain -1/int64/1/18446744073709551615|0 -281474976710656 -281474976710656 -281474976710656 0 -281474976710656 -281474976710656 -281474976710656 
model osssrsss|sum/int64/1/18446744073709551615|0 !32 !32 !32 0 !32 !32 !32 
model osssrsss|integrator -9223372036854775808 32768/int64/1/18446744073709551615|-9223372036854775808 -1 9223372036854775806 !32 -9223372036854775808 -1 9223372036854775806 !32 
model osssrsss|lag 0 1/int64/1/9223372036854775808|0 140737488355328 281472829227008 422206022647808 0 140737488355328 281472829227008 422206022647808 
model osssrsss|delay 4 1/int64/1/9223372036854775808|4 !32 !32 !32 4 !32 !32 !32 
model osssrsss|limiter -9 9223372036854775807/int64/1/9223372036854775808|0 9223372036854775807 9223372036854775807 9223372036854775807 0 9223372036854775807 9223372036854775807 9223372036854775807 
model osssrsss|deadband 9223372036854775807/int64/1/18446744073709551615|0 !32 !32 !32 0 !32 !32 !32 
model osssrsss|deadband 9223372036854775807/int64/1/18446744073709551614|0 9223372036854775807 9223372036854775807 9223372036854775807 0 9223372036854775807 9223372036854775807 9223372036854775807 
model osssrsss|divider 9223372036854775807/int64/1/18446744073709551615|0 32767 32767 32767 0 32767 32767 32767 
model osssrsss|divider -1/int64/1/18446744073709551615|0 -1 -1 -1 0 -1 -1 -1 
model osssrsss|tank 0 1 0/int64 int64/1/18446744073709551615|0 281474976710655 562949953421310 844424930131965 0 281474976710655 562949953421310 844424930131965 
model osssrsss|switch 9223372036854775807/int64/1/9223372036854775808|0 -1 -1 -1 0 -1 -1 -1 
model osssrsss|counter 9223372036854775807/int64/1/0|0 1 2 3 0 1 2 3 
model osssrsss|sum/int64/1/9223372036854775807|0 !32 !32 !32 0 !32 !32 !32 
model osssrsss|sum/int64/1/-9223372036854775808|0 -9223372036854775807 -9223372036854775807 -9223372036854775807 0 -9223372036854775807 -9223372036854775807 -9223372036854775807 
model osssrsss|delay -9223372036854775808 2/int64/1/9223372036854775807|-9223372036854775808 -9223372036854775808 9223372036854775807 9223372036854775807 -9223372036854775808 -9223372036854775808 9223372036854775807 9223372036854775807 
model osssrsss|limiter -9223372036854775808 9223372036854775807/int64/1/-9223372036854775808|0 -9223372036854775808 -9223372036854775808 -9223372036854775808 0 -9223372036854775808 -9223372036854775808 -9223372036854775808 
model osssrsss|deadband 0/int64/1/-9223372036854775808|0 -9223372036854775808 -9223372036854775808 -9223372036854775808 0 -9223372036854775808 -9223372036854775808 -9223372036854775808 
model osssrsss|deadband 9223372036854775807/int64/1/-9223372036854775808|0 -1 -1 -1 0 -1 -1 -1 
model osssrsss|deadband 9223372036854775807/int64/1/-9223372036854775807|0 0 0 0 0 0 0 0 
model osssrsss|divider -9223372036854775808/int64/1/-9223372036854775808|0 65536 65536 65536 0 65536 65536 65536 
model osssrsss|divider 9223372036854775807/int64/1/65536|0 9223372036854775807 9223372036854775807 9223372036854775807 0 9223372036854775807 9223372036854775807 9223372036854775807 
model osssrsss|tank 9223372036854775807 0 65536/int64 int64/1/0|9223372036854775807 0 0 0 9223372036854775807 0 0 0 
model osssrsss|tank 9223372036854775807 65536 0/int64 int64/1/1|9223372036854775807 !32 !32 !32 9223372036854775807 !32 !32 !32 
model osssrsss|oscillator 0 -9223372036854775808 65536 0/int64 int64/1/0|0 -9223372036854775808 !32 !32 0 -9223372036854775808 !32 !32 
model osssrsss|oscillator 0 -9223372036854775807 -65536 65536/int64 int64/1/0|0 !32 !32 !32 0 !32 !32 !32 
model osssrsss|switch -9223372036854775808/int64/1/-9223372036854775808|0 -1 -1 -1 0 -1 -1 -1 
model osssrsss|switch 9223372036854775807/int64/1/9223372036854775806|0 2 2 2 0 2 2 2 
model os|sum/int64/1/18446744073709551613 -9223372036854775808|0 9223372036854775807 
model OSS|oscillator 1000 0 6554 6554/int64 int64/1/0|0 -100 -198 
model OSS|oscillator -1000 7 65536 65536/int64 int64/2/0|7 993 -1000 
model OSS|tank 10 65536 6554/int64 int64/1/-3|1 0 0 
model OSS|tank 2000 65536 655/int64 int64/1/-250|19 17 14 
model OSS|tank 7 65536 32768/int64 int64/2/1|3 2 1 
model osor|delay 0 1/uint64/1/18446744073709551615|0 !32 0 0 
model osor|gain 65536/int64/1/9223372036854775808|0 !32 0 0 
model osor|ramp 9223372036854775805 1/int64/3/0|9223372036854775805 !32 9223372036854775805 9223372036854775805 
model osor|divider 1/int64/1/0|0 !33 0 0 
model osor|ramp 120 3/int8/3/0|120 !34 120 120 
model osor|counter 300/uint8/299/0|0 !34 0 0 
model osor|const 300/uint8/1/0|!34 !34 !34 !34 
model osor|delay -1 2/uint8/1/7|!34 !34 !34 !34 
model o|const/int64/1/0|BadParameters
model o|const 1 2/int64/1/0|BadParameters
model o|const 1/int64 int64/1/0|BadParameters
model o|ramp 1/int64/1/0|BadParameters
model o|counter 0/int64/1/0|BadParameters
model o|counter -9223372036854775808/int64/1/0|BadParameters
model o|counter 1 1/int64/1/0|BadParameters
model o|gain/int64/1/0|BadParameters
model o|sum 1/int64/1/0|BadParameters
model o|integrator 1 2 3/int64/1/0|BadParameters
model o|lag 0/int64/1/0|BadParameters
model o|lag 0 65537/int64/1/0|BadParameters
model o|lag 0 -1/int64/1/0|BadParameters
model o|delay 1/int64/1/0|BadParameters
model o|delay 0 65/int64/1/0|BadParameters
model o|delay 0 0/int64/1/0|BadParameters
model o|limiter 1/int64/1/0|BadParameters
model o|limiter 2 1/int64/1/0|BadParameters
model o|deadband/int64/1/0|BadParameters
model o|deadband -1/int64/1/0|BadParameters
model o|divider 1 1/int64/1/0|BadParameters
model o|oscillator 1 2 3/int64 int64/1/0|BadParameters
model o|oscillator 1 2 3 4/int64/1/0|BadParameters
model o|tank -1 0 0/int64 int64/1/0|BadParameters
model o|tank 0 0 -1/int64 int64/1/0|BadParameters
model o|tank 0 0 65537/int64 int64/1/0|BadParameters
model o|tank 0 0 0/int64/1/0|BadParameters
model o|switch/int64/1/0|BadParameters
model csssrcsss|const 7/int64/1/0/0 -8|-8 -8 -8 -8 -8 -8 -8 -8 -8 
model csssrcsss|ramp 5 -3/int64/1/0/1 10|5 15 25 35 5 5 15 25 35 
model csssrcsss|ramp 5 -3/int64/1/0/0 -1|-1 -4 -7 -10 -1 -1 -4 -7 -10 
model csssrcsss|counter 3/int64/1/0/0 2|0 1 0 1 0 0 1 0 1 
model csssrcsss|gain 0/int64/1/9/0 -65536|0 -9 -9 -9 0 0 -9 -9 -9 
model csssrcsss|integrator 10 0/int64/1/-3/1 32768|10 8 6 4 10 10 8 6 4 
model csssrcsss|lag 4 65536/int64/1/9/1 0|4 4 4 4 4 4 4 4 4 
model csssrcsss|delay 7 2/int64/1/-9/1 3|7 7 7 -9 7 7 7 7 -9 
model csssrcsss|delay 7 3/int64/1/-9/1 1|7 -9 -9 -9 7 7 -9 -9 -9 
model csssrcsss|delay 7 2/int64/1/-9/0 1|1 1 -9 -9 1 1 1 -9 -9 
model csssrcsss|limiter 3 9/int64/1/-2/0 -5|0 -2 -2 -2 0 0 -2 -2 -2 
model csssrcsss|limiter -9 -3/int64/1/50/1 -7|-7 -7 -7 -7 -7 -7 -7 -7 -7 
model csssrcsss|deadband 5/int64/1/-8/0 6|0 -2 -2 -2 0 0 -2 -2 -2 
model csssrcsss|divider 1/int64/1/2/0 -3|0 -98304 -98304 -98304 0 0 -98304 -98304 -98304 
model csssrcsss|oscillator 1000 5 6554 6554/int64 int64/1/0/1 0|1000 1000 989 969 1000 1000 1000 989 969 
model csssrcsss|tank 10 65536 6554/int64 int64/1/-3/2 0|10 7 4 1 10 10 7 4 1 
model csssrcsss|switch 5/int64/1/5/0 6|0 2 2 2 0 0 2 2 2 
model cosss|counter 3/int64/1/0/0 0|!0 0 1 2 0 
model cosss|lag -1 1/int64/1/0/1 -1|!0 -1 -1 -1 -1 
model cosss|lag 4 65536/int64/1/-9/1 65537|!0 4 -9 -9 -9 
model cosss|delay 7 2/int64/1/-9/1 65|!0 7 7 -9 -9 
model cosss|delay 7 2/int64/1/-9/1 0|!0 7 7 -9 -9 
model cosss|limiter 3 9/int64/1/-2/0 10|!0 3 3 3 3 
model cosss|limiter 3 9/int64/1/-2/1 2|!0 3 3 3 3 
model cosss|deadband 5/int64/1/-8/0 -1|!0 0 -3 -3 -3 
model cosss|tank 10 65536 6554/int64 int64/1/-3/0 -1|!0 10 6 3 0 
model cosss|tank 10 65536 6554/int64 int64/1/-3/2 65537|!0 10 6 3 0 
model ports|const|const 0:1
model ports|ramp|ramp 0:1
model ports|counter|counter 0:1
model ports|gain|gain 1:1
model ports|sum|sum 1:1 2:1 3:1 4:1 5:1 6:1 7:1 8:1
model ports|integrator|integrator 1:1
model ports|lag|lag 1:1
model ports|delay|delay 1:1
model ports|limiter|limiter 1:1
model ports|deadband|deadband 1:1
model ports|divider|divider 1:1
model ports|oscillator|oscillator 0:2
model ports|tank|tank 1:2
model ports|switch|switch 3:1";

/// An input is a value of one of the two widest data types.
#[derive(Clone, Copy)]
enum Input {
    Signed(i64),
    Unsigned(u64),
}

impl Input {
    fn value(self) -> i128
        ensures { IsInput result }
    {
        match self {
            Input::Signed(value) => i128::from(value),
            Input::Unsigned(value) => i128::from(value),
        }
    }
}

fn input_of(word: &str) -> Input {
    match word.parse::<i64>() {
        Ok(value) => Input::Signed(value),
        Err(_) => Input::Unsigned(word.parse::<u64>().unwrap_or(0)),
    }
}

fn kind_of(word: &str) -> Kind {
    for kind in KINDS {
        if kind.word() == word {
            return kind;
        }
    }
    Kind::Const
}

fn types_of(word: &str) -> &'static [DataType] {
    match word {
        "int8" => &[DataType::I8],
        "uint8" => &[DataType::U8],
        "uint64" => &[DataType::U64],
        "int64" => &[DataType::I64],
        _ => &[DataType::I64, DataType::I64],
    }
}

/// The numbers of a cell, which are separated by spaces.
fn numbers_of(alloc: Global, cell: &str) -> Result<Vec<i64>, Fail> {
    let mut numbers = Vec::new(alloc);
    for word in cell.split_whitespace() {
        numbers.push(word.parse::<i64>().unwrap_or(0))?;
    }
    Ok(numbers)
}

/// What the acts need of a row.
#[derive(Clone, Copy)]
struct Acts {
    kind: Kind,
    outputs: usize,
    parameters: usize,
    micro: u32,
    first: Input,
    second: Input,
    index: usize,
    value: i64,
}

/// A step on the first input, or on both and on 2, or on none, as the kind has inputs.
fn step_on(model: &mut Model, acts: &Acts) -> Result<(), FaultCode>
    requires kind { model.old.kind ≡ acts.now.kind }
    requires micro { 1 ≤ acts.now.micro }
    ensures kind { model.new.kind ≡ model.old.kind }
    ensures types { model.new.types ≡ model.old.types }
    ensures parameters { model.new.parameters ≡ model.old.parameters }
{
    let u = acts.first.value();
    let v = acts.second.value();
    match acts.kind {
        Kind::Const | Kind::Ramp | Kind::Counter | Kind::Oscillator => model.step(&[], acts.micro),
        Kind::Sum | Kind::Switch => model.step(&[u, v, 2], acts.micro),
        _ => model.step(&[u], acts.micro),
    }
}

/// An output, or the code of a fault; 1 where there is no such output.
fn output_of(model: &Model, acts: &Acts, port: u8) -> Result<i128, u16>
    requires outputs { length model.now.types ≡ acts.now.outputs }
{
    if usize::from(port) < acts.outputs {
        match model.output(port) {
            Ok(value) => Ok(value),
            Err(fault) => Err(fault.code()),
        }
    } else {
        Err(1)
    }
}

/// The change, or 0 where it is refused.
fn change(model: &mut Model, acts: &Acts) -> Result<(), u16>
    requires parameters { length model.old.parameters ≡ acts.now.parameters }
    ensures kind { model.new.kind ≡ model.old.kind }
    ensures types { model.new.types ≡ model.old.types }
    ensures parameters { length model.new.parameters ≡ length model.old.parameters }
{
    if acts.index < acts.parameters {
        match model.set(acts.index, acts.value) {
            Ok(()) => Ok(()),
            Err(_) => Err(0),
        }
    } else {
        Err(1)
    }
}

/// What comes of an act.
fn act(model: &mut Model, acts: &Acts, letter: u8) -> Result<i128, u16>
    requires kind { model.old.kind ≡ acts.now.kind }
    requires outputs { length model.old.types ≡ acts.now.outputs }
    requires parameters { length model.old.parameters ≡ acts.now.parameters }
    requires micro { 1 ≤ acts.now.micro }
    ensures kind { model.new.kind ≡ model.old.kind }
    ensures types { model.new.types ≡ model.old.types }
    ensures parameters { length model.new.parameters ≡ length model.old.parameters }
{
    if letter == b's' || letter == b'S' {
        if let Err(fault) = step_on(model, acts) {
            return Err(fault.code());
        }
    } else if letter == b'r' {
        model.restart();
    } else if letter == b'c' {
        change(model, acts)?;
    }
    let port = if letter == b'S' || letter == b'O' {
        1
    } else {
        0
    };
    output_of(model, acts, port)
}

/// Appends what comes of each act.
fn tell_acts(told: &mut String, model: &mut Model, acts: &Acts, letters: &str) -> Result<(), Fail>
    requires kind { model.old.kind ≡ acts.now.kind }
    requires outputs { length model.old.types ≡ acts.now.outputs }
    requires parameters { length model.old.parameters ≡ acts.now.parameters }
    requires micro { 1 ≤ acts.now.micro }
{
    for letter in letters.as_bytes() {
        match act(model, acts, *letter) {
            Ok(value) => write!(told, "{value} ")?,
            Err(code) => write!(told, "!{code} ")?,
        }
    }
    Ok(())
}

/// Appends with how many inputs and outputs a kind goes.
fn tell_ports(told: &mut String, kind: Kind) -> Result<(), Fail> {
    write!(told, "{}", kind.word())?;
    for inputs in 0..10 {
        for outputs in 0..4 {
            if has_ports(kind, inputs, outputs) {
                write!(told, " {inputs}:{outputs}")?;
            }
        }
    }
    Ok(())
}

/// The acts on a model, of a cell with the micro steps, the inputs, and the index and the value of a
/// change.
fn acts_of(kind: Kind, outputs: usize, parameters: usize, cell: &str) -> Acts
    ensures kind { result.kind ≡ kind }
    ensures outputs { result.outputs ≡ outputs }
    ensures parameters { result.parameters ≡ parameters }
    ensures micro { 1 ≤ result.micro }
{
    let (micro, rest) = cell.split_once('/').unwrap_or((cell, ""));
    let (inputs, change) = rest.split_once('/').unwrap_or((rest, ""));
    let (first, second) = inputs.split_once(' ').unwrap_or((inputs, "-1"));
    let (index, value) = change.split_once(' ').unwrap_or((change, ""));
    Acts {
        kind,
        outputs,
        parameters,
        micro: micro.parse::<u32>().unwrap_or(1).max(1),
        first: input_of(first),
        second: input_of(second),
        index: index.parse::<usize>().unwrap_or(0),
        value: value.parse::<i64>().unwrap_or(0),
    }
}

/// Appends what comes of a model of this kind with these parameters.
fn tell_model(
    alloc: Global,
    told: &mut String,
    letters: &str,
    kind: Kind,
    parameters: &[i64],
    cell: &str,
) -> Result<(), Fail> {
    let (types, rest) = cell.split_once('/').unwrap_or((cell, ""));
    let types = types_of(types);
    let acts = acts_of(kind, types.len(), parameters.len(), rest);
    match Model::new(alloc, kind, parameters, types) {
        Ok(mut model) => tell_acts(told, &mut model, &acts, letters)?,
        Err(refused) => write!(told, "{refused:?}")?,
    }
    Ok(())
}

/// Appends the answer about a model.
pub fn tell(alloc: Global, told: &mut String, asked: &str, cell: &str) -> Result<(), Fail> {
    let (machine, rest) = cell.split_once('/').unwrap_or((cell, ""));
    let (kind, parameters) = machine.split_once(' ').unwrap_or((machine, ""));
    let kind = kind_of(kind);
    let letters = asked.strip_prefix("model ").unwrap_or("");
    if letters == "ports" {
        return tell_ports(told, kind);
    }
    let parameters = numbers_of(alloc, parameters)?;
    tell_model(alloc, told, letters, kind, &parameters, rest)
}
