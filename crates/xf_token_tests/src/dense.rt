//! The bodies of dense constants, where they are asked for alone.

use std::alloc::Global;
use std::test::Fail;
use xf_dense::{Body, Due, Literal, Stopped, body_at, fits_shape};
use xf_lex::{Token, tokens};
use xf_type::{Dim, ListOf, NoMemory, Shape, Width};

/// What stands between `dense<` and `>`, and what is read of it: the extents and the literals, or the
/// number of the token that does not fit.
const BODIES: [(&str, &str); 19] = [
    ("", ""),
    ("7", " 7"),
    ("-7", " -7"),
    ("true", " true"),
    ("[-1]", "1x -1"),
    ("[true, false]", "2x true false"),
    ("[[1, 2], [3, 4]]", "2x2x 1 2 3 4"),
    ("[[1, -2, 3], [4, 5, 6]]", "2x3x 1 -2 3 4 5 6"),
    ("[[[1]], [[2]]]", "2x1x1x 1 2"),
    ("[]", "refused at 1"),
    ("[[1, 2], [3]]", "refused at 9"),
    ("[[1], [2, 3]]", "refused at 7"),
    ("[1, [2]]", "refused at 3"),
    ("[[1], 2]", "refused at 5"),
    ("[1 2]", "refused at 2"),
    ("[1,]", "refused at 3"),
    ("1 2", "refused at 1"),
    ("- [", "refused at 1"),
    ("[\"1\"]", "refused at 1"),
];

/// Adds a literal.
fn add_literal(line: &mut String, list: &[Token], literal: Literal) -> Result<(), NoMemory> {
    match literal {
        Literal::Truth(truth) => write!(line, " {truth}"),
        Literal::Integer { negative, token } if token < list.len() => {
            let digits = str::from_utf8(list[token].bytes.as_slice()).unwrap_or("?");
            line.push_str(if negative { " -" } else { " " })?;
            line.push_str(digits)
        }
        Literal::Integer { .. } => line.push_str(" ?"),
    }
}

/// The extents of a body, and its literals.
fn told(alloc: Global, list: &[Token], body: &Body) -> Result<String, NoMemory> {
    let mut line = String::new(alloc);
    if let Some(extents) = &body.extents {
        for extent in extents.as_slice() {
            write!(line, "{extent}x")?;
        }
    }
    for literal in body.literals.as_slice() {
        add_literal(&mut line, list, *literal)?;
    }
    Ok(line)
}

/// What is read of the tokens of a text.
fn read(alloc: Global, list: &[Token]) -> Result<String, NoMemory> {
    match body_at(alloc, list, 0) {
        Ok((body, _)) => told(alloc, list, &body),
        Err(Stopped::At(at, _)) => format!(in alloc; "refused at {at}"),
        Err(Stopped::NoMemory) => Ok(String::from_str(alloc, "no memory")?),
    }
}

#[test]
fn bodies_are_read(rt: HostRuntime) -> Result<(), Fail> {
    for (text, wanted) in BODIES {
        let whole = format!(in rt.alloc(); "{text}>")?;
        let list = tokens(rt.alloc(), whole.as_bytes())?;
        assert_eq!(rt;
            read(rt.alloc(), list.as_slice())?.as_str(),
            wanted,
            "{text}"
        );
    }
    Ok(())
}

/// Whether the body that this text writes stands for the elements of a tensor of this type.
fn fits(alloc: Global, text: &str, dims: &[Dim], elem: Width) -> Result<bool, Fail> {
    let list = tokens(alloc, text.as_bytes())?;
    let shape = Shape {
        dims: ListOf::from_slice(alloc, dims)?,
        elem,
    };
    let (body, _) = body_at(alloc, list.as_slice(), 0)?;
    Ok(fits_shape(&body, &shape))
}

#[test]
fn bodies_fit_types(rt: HostRuntime) -> Result<(), Fail> {
    let two_by_one = [Dim::Fixed(2), Dim::Fixed(1)];
    let some_by_one = [Dim::Dynamic, Dim::Fixed(1)];
    let none_by_one = [Dim::Fixed(0), Dim::Fixed(1)];
    for (text, dims, elem, wanted) in [
        ("[[1], [2]]>", &two_by_one, Width::I8, true),
        ("[[1], [2]]>", &some_by_one, Width::I8, true),
        ("[[1, 2]]>", &two_by_one, Width::I8, false),
        ("[1, 2]>", &two_by_one, Width::I8, false),
        ("7>", &two_by_one, Width::I8, true),
        ("7>", &some_by_one, Width::I8, true),
        ("7>", &none_by_one, Width::I8, false),
        (">", &two_by_one, Width::I8, false),
        (">", &some_by_one, Width::I8, true),
        (">", &none_by_one, Width::I8, true),
        ("true>", &two_by_one, Width::I8, false),
        ("[[true], [1]]>", &two_by_one, Width::I1, true),
    ] {
        assert_eq!(rt;
            fits(rt.alloc(), text, dims.as_slice(), elem)?,
            wanted,
            "{text}"
        );
    }
    Ok(())
}

/// How many elements, and how many levels, a large body has.
const MANY: usize = 1_048_576;

/// A text that begins with one piece, then has another so many times, and ends with a third.
fn repeated(alloc: Global, first: &str, again: &str, last: &str) -> Result<String, NoMemory> {
    let mut text = String::from_str(alloc, first)?;
    for _ in 1..MANY {
        text.push_str(again)?;
    }
    text.push_str(last)?;
    Ok(text)
}

#[test]
fn large_bodies_are_read(rt: HostRuntime) -> Result<(), Fail> {
    let wide = repeated(rt.alloc(), "[1", ", 1", "]>")?;
    let list = tokens(rt.alloc(), wide.as_bytes())?;
    let (body, next) = body_at(rt.alloc(), list.as_slice(), 0)?;
    assert_eq!(rt; (body.literals.len(), next), (MANY, 2 * MANY + 1));
    let deep = repeated(rt.alloc(), "[", "[", ">")?;
    let list = tokens(rt.alloc(), deep.as_bytes())?;
    let fault = body_at(rt.alloc(), list.as_slice(), 0).err();
    assert_eq!(rt; fault, Some(Stopped::At(MANY, Due::Item)));
    Ok(())
}
