//! The head of an operation, where it is asked for alone.

use std::alloc::Global;
use std::test::Fail;
use xf_lex::{TokenList, tokens};
use xf_read_base::head;

/// A text, and what stands at its begin: the number of tokens of a head, nothing, or a fault.
const TEXTS: [(&str, &str); 6] = [
    ("arith.constant {b, a = 3 : i8} - 5 : i8", "14"),
    ("%a:2 = scf.if %c -> (i1, i1) {", "12"),
    ("%0 = tensor.empty() : tensor<4xi8>", "nothing"),
    ("linalg.fill ins(%a : i8)", "nothing"),
    ("arith.constant {x} dense<1> : tensor<4xi8>", "nothing"),
    ("arith.addi %a %b : i8", "a fault"),
];

/// What stands at the begin of a list of tokens.
fn told(alloc: Global, list: &TokenList) -> Result<String, Fail> {
    match head(alloc, list, 0) {
        Ok(Some(head)) => Ok(format!(in alloc; "{}", head.next)?),
        Ok(None) => Ok(String::from_str(alloc, "nothing")?),
        Err(_) => Ok(String::from_str(alloc, "a fault")?),
    }
}

#[test]
fn heads_are_told_from_what_others_read(rt: HostRuntime) -> Result<(), Fail> {
    for (text, wanted) in TEXTS {
        let list = tokens(rt.alloc(), text.as_bytes())?;
        assert_eq!(rt; told(rt.alloc(), &list)?.as_str(), wanted, "{text}");
    }
    Ok(())
}
