//! Files of several models, whose lines and first faults are worked out by hand.

use crate::blif_files;
use crate::compared::{has_names, is_graph};
use hier_blif::{
    BlifModel, CoverLine, Hier, HierFault, HierKind, HierStop, InstanceLine, ModelLine,
    check_models, check_names, read, read_models,
};
use net_core::{Graph, Lit};
use std::alloc::{AllocError, Global};
use std::test::Fail;
use text_core::{Span, put_decimal};

/// Writes words one after another, each with a comma after it.
fn put_words(words: &[Span<'_>], text: &mut Vec<u8>) -> Result<(), AllocError> {
    for word in words.iter() {
        text.extend_from_slice(word.bytes())?;
        text.extend_from_slice(b",")?;
    }
    Ok(())
}

// Writes the operands and the name of a cover, how many rows it has, and whether they are of the on-set.
fn put_cover(cover: &CoverLine<'_>, text: &mut Vec<u8>) -> Result<(), AllocError> {
    text.extend_from_slice(b" cover ")?;
    put_words(&cover.operands, text)?;
    text.extend_from_slice(cover.defined.bytes())?;
    text.extend_from_slice(b"/")?;
    put_decimal(cover.rows.len() as u64, text)?;
    text.extend_from_slice(if cover.on {
        b"/on".as_slice()
    } else {
        b"/off".as_slice()
    })?;
    Ok(())
}

fn put_instance(instance: &InstanceLine<'_>, text: &mut Vec<u8>) -> Result<(), AllocError> {
    text.extend_from_slice(b" instance ")?;
    text.extend_from_slice(instance.model.bytes())?;
    text.extend_from_slice(b":")?;
    put_words(&instance.bindings, text)
}

fn put_ports(kind: &[u8], words: &[Span<'_>], text: &mut Vec<u8>) -> Result<(), AllocError> {
    text.extend_from_slice(kind)?;
    put_words(words, text)
}

fn put_line(line: &ModelLine<'_>, text: &mut Vec<u8>) -> Result<(), AllocError> {
    match line {
        ModelLine::Inputs(words) => put_ports(b" inputs ", words, text),
        ModelLine::Outputs(words) => put_ports(b" outputs ", words, text),
        ModelLine::Cover(cover) => put_cover(cover, text),
        ModelLine::Instance(instance) => put_instance(instance, text),
    }
}

fn put_model(model: &BlifModel<'_>, text: &mut Vec<u8>) -> Result<(), AllocError> {
    text.extend_from_slice(model.name.bytes())?;
    text.extend_from_slice(b"@")?;
    put_decimal(model.at, text)?;
    for line in model.lines.iter() {
        put_line(line, text)?;
    }
    text.extend_from_slice(b";")?;
    Ok(())
}

fn put_models(models: &[BlifModel<'_>], text: &mut Vec<u8>) -> Result<(), AllocError> {
    for model in models.iter() {
        put_model(model, text)?;
    }
    Ok(())
}

// Whether a file has these models, each with its place and its lines.
fn has_models(alloc: Global, file: &[u8], expected: &[u8]) -> Result<bool, HierStop> {
    let models = read_models(alloc, file)?;
    let mut text = Vec::new(alloc);
    put_models(&models, &mut text)?;
    Ok(text.as_slice() == expected)
}

#[test]
fn reads_models_of_instances(rt: HostRuntime) -> Result<(), Fail> {
    let has_both = has_models(
        rt.alloc(),
        b".model top\n.inputs a b\n.outputs y\n.subckt nd p=a q=b r=t\n.subckt nd p=t q=t r=y\n.end\n\
          .model nd\n.inputs p q\n.outputs r\n.names p q r\n11 0\n.end\n",
        b"top@0 inputs a,b, outputs y, instance nd:p=a,q=b,r=t, instance nd:p=t,q=t,r=y,;\
          nd@85 inputs p,q, outputs r, cover p,q,r/1/off;",
    )?;
    assert!(rt; has_both);
    Ok(())
}

// Files, and their models.
static MODELS: [(&'static [u8], &'static [u8]); 6] = [
    // without a `.model` line there is one model, which has no name
    (b"", b"@0;"),
    (b".default_input_arrival 0 0\n", b"@0;"),
    // what is passed over begins no model, and `.end` does
    (b".area 1\n.model m\n", b"m@8;"),
    (b".end\n.model m\n", b"@0;m@5;"),
    // lines before the first `.model` line
    (
        b".names y\n1\n.model m\n.inputs a\n",
        b"@0 cover y/1/on;m@11 inputs a,;",
    ),
    // without rows a cover is of the on-set; a model ends where the next begins
    (
        b".model m\n.names a y\n.model n\n.names y\n1\n1\n",
        b"m@0 cover a,y/0/on;n@20 cover y/2/on;",
    ),
];

#[test]
fn reads_models_of_all_forms(rt: HostRuntime) -> Result<(), Fail> {
    for (file, models) in MODELS.iter() {
        let has = has_models(rt.alloc(), file, models)?;
        assert!(rt; has);
    }
    Ok(())
}

// Files of which a line is refused: the kind of its fault, and where it stands.
static FAULTS: [(&'static [u8], HierKind, u64); 20] = [
    (b".model\n", HierKind::ModelName, 0),
    (b".model a\n.model a\n", HierKind::ModelName, 9),
    (b".subckt\n", HierKind::Directive, 0),
    (b".subckt x a=\n", HierKind::Binding, 10),
    (b".subckt x =b\n", HierKind::Binding, 10),
    (b".subckt x a=b ab a=\n", HierKind::Binding, 14),
    (b".names\n", HierKind::Directive, 0),
    (b".gate and2 a=b\n", HierKind::Directive, 0),
    (b" .latch a b 0\n", HierKind::Sequential, 1),
    (b".exdc\n", HierKind::DontCare, 0),
    (b"11 1\n", HierKind::RowOutside, 0),
    (b".names a b y\n1 1\n", HierKind::RowWidth, 13),
    (b".names a b y\n1 1 1\n", HierKind::RowWidth, 13),
    (b".names a y\n2 1\n", HierKind::RowChar, 11),
    (b".names a y\n1 1\n0 0\n", HierKind::MixedCover, 15),
    // after `.end`, and after the next model has begun
    (b".end\n.end\n", HierKind::Directive, 5),
    (b".model a\n.end\n.names x\n", HierKind::Directive, 14),
    (b".names a y\n.model b\n1 1\n", HierKind::RowOutside, 20),
    // the first line that is refused decides
    (b".model a\n.exdc\n.latch\n", HierKind::DontCare, 9),
    // a line goes on, and is refused at its first word
    (b"#\n\\\n .subckt \\\n\n", HierKind::Directive, 5),
];

fn has_fault(alloc: Global, file: &[u8], fault: HierFault) -> bool {
    match read_models(alloc, file) {
        Err(HierStop::Fault(found)) => found == fault,
        _ => false,
    }
}

#[test]
fn finds_the_first_line_that_is_refused(rt: HostRuntime) -> Result<(), Fail> {
    for (file, kind, at) in FAULTS.iter() {
        let fault = HierFault {
            kind: *kind,
            at: *at,
        };
        assert!(rt; has_fault(rt.alloc(), file, fault));
    }
    Ok(())
}

// Reads the models of a file, and checks their names.
fn check_file(alloc: Global, file: &[u8]) -> Result<(), HierStop> {
    let models = read_models(alloc, file)?;
    check_names(alloc, &models)
}

// Files whose names have no fault.
static NAMED: [&'static [u8]; 4] = [
    b".inputs\n.outputs\n",
    b".model top\n.inputs a b\n.outputs y\n.subckt nd p=a q=b r=t\n.subckt nd p=t q=t r=y\n.end\n\
      .model nd\n.inputs p q\n.outputs r\n.names p q r\n11 0\n.end\n",
    // an input that is an output, an output that isn't bound, lines in any order
    b".model t\n.outputs y a\n.names a y\n1 1\n.subckt u p=y\n.inputs a\n\
      .model u\n.names p r\n.inputs p\n.outputs r\n",
    // that a model has an instance of itself is no fault of names
    b".model t\n.inputs a\n.outputs y\n.subckt t a=a y=y\n",
];

#[test]
fn takes_names_without_a_fault(rt: HostRuntime) -> Result<(), Fail> {
    for file in NAMED.iter() {
        check_file(rt.alloc(), file)?;
    }
    Ok(())
}

// Files whose lines are taken and whose names have a fault: its kind, and where it stands.
static NAME_FAULTS: [(&'static [u8], HierKind, u64); 16] = [
    (b"", HierKind::NoPortLine, 0),
    // a model without a port line comes before what repeats in an earlier one
    (
        b".model a\n.inputs x x\n.outputs\n.model b\n.inputs\n",
        HierKind::NoPortLine,
        30,
    ),
    (b".inputs a a\n.outputs\n", HierKind::DuplicatePort, 10),
    (
        b".inputs a\n.outputs a y\n.outputs y\n",
        HierKind::DuplicatePort,
        32,
    ),
    (b".inputs\n.outputs\n.subckt x a=b\n", HierKind::NoModel, 25),
    (
        b".model t\n.inputs a\n.outputs y\n.subckt u p=a q=y\n.model u\n.inputs p\n.outputs r\n",
        HierKind::Formal,
        44,
    ),
    // a port that is both an input and an output
    (
        b".model t\n.inputs a\n.outputs y\n.subckt u p=a\n.model u\n.inputs p\n.outputs p\n",
        HierKind::Formal,
        40,
    ),
    (
        b".model t\n.inputs a\n.outputs y\n.subckt u p=a p=a r=y\n.model u\n.inputs p\n.outputs r\n",
        HierKind::FormalTwice,
        44,
    ),
    (
        b".model top\n.inputs a\n.outputs y\n.subckt nd p=a r=y\n.end\n\
          .model nd\n.inputs p q\n.outputs r\n.names p q r\n11 0\n",
        HierKind::Unbound,
        32,
    ),
    // an input is defined, wherever its line stands
    (
        b".inputs a\n.outputs a\n.names a\n1\n",
        HierKind::Redefined,
        28,
    ),
    (
        b".outputs y\n.names y\n.inputs y\n",
        HierKind::Redefined,
        18,
    ),
    // by a cover, and then by an output that is bound
    (
        b".model t\n.inputs a\n.outputs y\n.names a y\n1 1\n.subckt u p=a r=y\n\
          .model u\n.inputs p\n.outputs r\n.names p r\n",
        HierKind::Redefined,
        59,
    ),
    (b".inputs\n.outputs y\n", HierKind::Undefined, 17),
    (b".inputs\n.outputs\n.names b c\n", HierKind::Undefined, 24),
    (
        b".model t\n.inputs\n.outputs\n.subckt u p=z\n.model u\n.inputs p\n.outputs\n",
        HierKind::Undefined,
        36,
    ),
    // a line that is refused comes before any name
    (
        b".model a\n.inputs x x\n.outputs\n.exdc\n",
        HierKind::DontCare,
        30,
    ),
];

fn has_fault_of_names(alloc: Global, file: &[u8], fault: HierFault) -> bool {
    match check_file(alloc, file) {
        Err(HierStop::Fault(found)) => found == fault,
        _ => false,
    }
}

#[test]
fn finds_the_first_fault_of_names(rt: HostRuntime) -> Result<(), Fail> {
    for (file, kind, at) in NAME_FAULTS.iter() {
        let fault = HierFault {
            kind: *kind,
            at: *at,
        };
        assert!(rt; has_fault_of_names(rt.alloc(), file, fault));
    }
    Ok(())
}

// Reads the models of a file, and checks all of them that is checked before any instance is made.
fn check_hierarchy(alloc: Global, file: &[u8]) -> Result<(), HierStop> {
    let models = read_models(alloc, file)?;
    if models.is_empty() {
        return Ok(());
    }
    check_models(alloc, &models, file.len() as u64)
}

// Files whose instances have no end, or whose names are refused before: the kind of the fault, and where it stands.
static FAULTS_OF_HIERARCHIES: [(&'static [u8], HierKind, u64); 4] = [
    (
        b".model t\n.inputs a\n.outputs y\n.subckt t a=a y=y\n",
        HierKind::Recursion,
        30,
    ),
    // the first model has an instance of one with a depth, and then of one of two that have instances of each other
    (
        b".model t\n.inputs\n.outputs\n.subckt l\n.subckt u\n.model u\n.inputs\n.outputs\n.subckt v\n\
          .model v\n.inputs\n.outputs\n.subckt u\n.model l\n.inputs\n.outputs\n",
        HierKind::Recursion,
        36,
    ),
    // also where no instance of the first model leads there
    (
        b".model t\n.inputs\n.outputs\n.model u\n.inputs\n.outputs\n.subckt u\n",
        HierKind::Recursion,
        52,
    ),
    // a name that is refused comes before any instance
    (
        b".model t\n.inputs\n.outputs y\n.subckt t y=z\n",
        HierKind::Undefined,
        26,
    ),
];

fn has_fault_of_hierarchy(alloc: Global, file: &[u8], fault: HierFault) -> bool {
    match check_hierarchy(alloc, file) {
        Err(HierStop::Fault(found)) => found == fault,
        _ => false,
    }
}

#[test]
fn finds_the_first_instance_without_a_depth(rt: HostRuntime) -> Result<(), Fail> {
    for (file, kind, at) in FAULTS_OF_HIERARCHIES.iter() {
        let fault = HierFault {
            kind: *kind,
            at: *at,
        };
        assert!(rt; has_fault_of_hierarchy(rt.alloc(), file, fault));
    }
    Ok(())
}

// A model with two instances of the one whose name is the next letter.
fn add_doubling(letter: u8, text: &mut Vec<u8>) -> Result<(), AllocError> {
    text.extend_from_slice(b".model ")?;
    text.push(letter)?;
    text.extend_from_slice(b"\n.inputs\n.outputs\n.subckt ")?;
    text.push(letter.wrapping_add(1))?;
    text.extend_from_slice(b"\n.subckt ")?;
    text.push(letter.wrapping_add(1))?;
    text.extend_from_slice(b"\n")
}

// Models of which each has two instances of the next, and the last none.
fn doublings(alloc: Global, letters: &[u8], last: u8) -> Result<Vec<u8>, AllocError> {
    let mut text = Vec::new(alloc);
    for letter in letters.iter() {
        add_doubling(*letter, &mut text)?;
    }
    text.extend_from_slice(b".model ")?;
    text.push(last)?;
    text.extend_from_slice(b"\n.inputs\n.outputs\n")?;
    Ok(text)
}

#[test]
fn counts_instances_and_makes_none(rt: HostRuntime) -> Result<(), Fail> {
    // 4,194,303 instances, and twice as many and one
    let small = doublings(rt.alloc(), b"abcdefghijklmnopqrstu", b'v')?;
    check_hierarchy(rt.alloc(), &small)?;
    let large = doublings(rt.alloc(), b"abcdefghijklmnopqrstuv", b'w')?;
    let fault = HierFault {
        kind: HierKind::TooBig,
        at: large.len() as u64,
    };
    assert!(rt; has_fault_of_hierarchy(rt.alloc(), &large, fault));
    Ok(())
}

// A model with so many inputs, whose names are numbers from 0 on.
fn with_inputs(alloc: Global, count: u64) -> Result<Vec<u8>, AllocError> {
    let mut text = Vec::from_slice(alloc, b".model t\n.outputs\n.inputs")?;
    for input in 0..count {
        text.push(b' ')?;
        put_decimal(input, &mut text)?;
    }
    text.push(b'\n')?;
    Ok(text)
}

#[test]
fn counts_ports_of_the_first_model(rt: HostRuntime) -> Result<(), Fail> {
    let few = with_inputs(rt.alloc(), 4_096)?;
    check_hierarchy(rt.alloc(), &few)?;
    // the line has 25 bytes before the inputs 0 to 4,095, which take 20, 270, 3,600 and 15,480 bytes by their lengths
    let many = with_inputs(rt.alloc(), 4_097)?;
    let fault = HierFault {
        kind: HierKind::TooManyInputs,
        at: 19_396,
    };
    assert!(rt; has_fault_of_hierarchy(rt.alloc(), &many, fault));
    Ok(())
}

/// Reads a text, which no test makes longer than a file may be.
fn read_text(alloc: Global, text: &[u8]) -> Result<Hier, HierStop> {
    if text.len() > 67_108_864 {
        return Err(HierStop::Memory);
    }
    read(alloc, text)
}

#[test]
fn flattens_two_instances_of_a_model(rt: HostRuntime) -> Result<(), Fail> {
    let hier = read_text(
        rt.alloc(),
        b".model top\n.inputs a b\n.outputs y\n.subckt nd p=a q=b r=t\n.subckt nd p=t q=t r=y\n.end\n\
          .model nd\n.inputs p q\n.outputs r\n.names p q r\n11 0\n.end\n",
    )?;
    assert_eq!(rt; (hier.models, hier.instances), (2, 3));
    assert!(rt; is_graph(&hier.net.graph, &[(2, 4), (7, 7)], &[Lit(9)]));
    assert!(rt; has_names(rt.alloc(), &hier.net, b"a,b,", b"y,")?);
    Ok(())
}

#[test]
fn flattens_instances_within_instances(rt: HostRuntime) -> Result<(), Fail> {
    // the output s of mid is bound to nothing, and its gate is there
    let hier = read_text(
        rt.alloc(),
        b".model top\n.inputs a b\n.outputs y\n.subckt mid p=a q=b r=y\n\
          .model mid\n.inputs p q\n.outputs r s\n.subckt nd p=p q=q r=r\n.names p q s\n11 1\n\
          .model nd\n.inputs p q\n.outputs r\n.names p q r\n11 0\n",
    )?;
    assert_eq!(rt; (hier.models, hier.instances), (3, 3));
    assert!(rt; is_graph(&hier.net.graph, &[(2, 4), (2, 4)], &[Lit(7)]));
    Ok(())
}

fn is_same_graph(one: &Graph, other: &Graph) -> bool {
    (one.inputs() == other.inputs())
        & (one.gates() == other.gates())
        & (one.outputs() == other.outputs())
}

#[test]
fn flattens_to_what_one_model_is(rt: HostRuntime) -> Result<(), Fail> {
    // a full adder of two half adders, and the same covers in one model
    let hier = read_text(
        rt.alloc(),
        b".model fa\n.inputs a b c\n.outputs s k\n.subckt ha x=a y=b s=t c=u\n.subckt ha x=t y=c s=s c=v\n\
          .names u v k\n1- 1\n-1 1\n.end\n\
          .model ha\n.inputs x y\n.outputs s c\n.names x y s\n10 1\n01 1\n.names x y c\n11 1\n.end\n",
    )?;
    let named = blif_files::read_text(
        rt.alloc(),
        b".model fa\n.inputs a b c\n.outputs s k\n.names a b t\n10 1\n01 1\n.names a b u\n11 1\n\
          .names t c s\n10 1\n01 1\n.names t c v\n11 1\n.names u v k\n1- 1\n-1 1\n.end\n",
    )?;
    assert_eq!(rt; (hier.models, hier.instances), (2, 3));
    assert!(rt; is_same_graph(&hier.net.graph, &named.graph));
    Ok(())
}

// Files that aren't flattened: the kind of the first fault, and where it stands.
static UNREAD: [(&'static [u8], HierKind, u64); 3] = [
    // an input of the model isn't bound
    (
        b".model top\n.inputs a\n.outputs y\n.subckt nd p=a r=y\n.end\n.model nd\n.inputs p q\n.outputs r\n\
          .names p q r\n11 0\n",
        HierKind::Unbound,
        32,
    ),
    (
        b".model t\n.inputs a\n.outputs y\n.subckt t a=a y=y\n",
        HierKind::Recursion,
        30,
    ),
    // a cycle through an instance, at its cover
    (
        b".model t\n.inputs a\n.outputs y\n.subckt u p=y q=y\n.model u\n.inputs p\n.outputs q\n.names p q\n1 1\n",
        HierKind::Cycle,
        78,
    ),
];

#[test]
fn finds_the_first_fault_of_a_hierarchy(rt: HostRuntime) -> Result<(), Fail> {
    for (text, kind, at) in UNREAD.iter() {
        match read_text(rt.alloc(), text) {
            Err(HierStop::Fault(fault)) => {
                assert_eq!(rt; (fault.kind, fault.at), (*kind, *at));
            }
            _ => assert!(rt; false),
        }
    }
    Ok(())
}
