//! Small programs, and how many statements and bytes their flat programs have.

use base::{Boxed, Items, Memory};
use c_tree::{Kind, TypedExpr, TypedFunc, TypedGlobal, TypedNode, TypedProgram, TypedStmt};
use flat_lower::lower;
use std::alloc::Global;

fn function(alloc: Global, body: TypedStmt) -> Result<TypedFunc, Memory> {
    Ok(TypedFunc {
        result: Some(Kind::Int),
        params: 0,
        scalars: Items::new(alloc),
        arrays: Items::new(alloc),
        body,
    })
}

/// `int g[3] = {65, 258};` and a main that returns a number.
fn program(alloc: Global, w: u64) -> Result<TypedProgram, Memory> {
    let init = Items::from_slice(alloc, &[65, 258])?;
    let mut globals = Items::new(alloc);
    globals.push(TypedGlobal {
        kind: Kind::Int,
        length: Some(3),
        row: None,
        init,
    })?;
    let number = TypedExpr {
        kind: Some(Kind::Int),
        at: 0,
        node: TypedNode::Number(w),
    };
    let value = Boxed::new(alloc, number)?;
    let mut functions = Items::new(alloc);
    functions.push(function(alloc, TypedStmt::Return(Some(value)))?)?;
    Ok(TypedProgram {
        globals,
        functions,
        main: 0,
    })
}

/// The statements of the first function, and the bytes of the globals.
fn lowered(alloc: Global, w: u64) -> Result<(usize, Items<u8>), Memory> {
    let program = program(alloc, w)?;
    let flat = lower(alloc, &program)?;
    let statements = match flat.functions.get(0) {
        None => 0,
        Some(f) => f.body.len(),
    };
    Ok((statements, flat.bytes))
}

#[test]
fn programs_have_their_statements_and_bytes(rt: HostRuntime) {
    let bytes: [u8; 16] = [0, 0, 0, 65, 0, 0, 1, 2, 0, 0, 0, 0, 0, 0, 0, 0];
    for w in [0, 7, 18446744073709551615] {
        let (statements, image) = lowered(rt.alloc(), w).expect(&rt, "memory");
        assert_eq!(rt;
            statements,
            3,
            "main returns {w}: a value, its return and the end's"
        );
        assert!(rt;
            image.as_slice() == bytes.as_slice(),
            "main returns {w}: the globals"
        );
    }
}
