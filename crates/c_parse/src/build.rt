//! The nodes of statements and the sizes of arrays, each from its parts.

ghost use Rattle.std.specs.Prelude.{◌≡◌, Some, None};
ghost use Rattle.c_grammar.specs.Statements as grammar;
ghost use Rattle.c_grammar.specs.Units as units;
ghost use Rattle.c_tree.specs.declared.tree.StmtNode.TheVariants as node;

use crate::held::Held;
use base::{Boxed, Items};
use c_tree::{ArraySize, Expr, ForInit, Section, Stmt, StmtNode};

pub fn if_only(offset: u32, test: Boxed<Expr>, yes: Boxed<Stmt>) -> Stmt
    ensures { result ≡ grammar.at offset (node.If test yes None) }
{
    Stmt {
        offset,
        node: StmtNode::If {
            test,
            yes,
            no: None,
        },
    }
}

pub fn if_else(offset: u32, test: Boxed<Expr>, yes: Boxed<Stmt>, no: Boxed<Stmt>) -> Stmt
    ensures { result ≡ grammar.at offset (node.If test yes (Some no)) }
{
    Stmt {
        offset,
        node: StmtNode::If {
            test,
            yes,
            no: Some(no),
        },
    }
}

pub fn while_loop(offset: u32, test: Boxed<Expr>, body: Boxed<Stmt>) -> Stmt
    ensures { result ≡ grammar.at offset (node.While test body) }
{
    Stmt {
        offset,
        node: StmtNode::While { test, body },
    }
}

pub fn do_loop(offset: u32, body: Boxed<Stmt>, test: Boxed<Expr>) -> Stmt
    ensures { result ≡ grammar.at offset (node.Do body test) }
{
    Stmt {
        offset,
        node: StmtNode::Do { body, test },
    }
}

pub fn for_loop(
    offset: u32,
    init: Held<ForInit>,
    test: Held<Option<Boxed<Expr>>>,
    post: Held<Option<Boxed<Expr>>>,
    body: Boxed<Stmt>,
) -> Stmt
    ensures { result ≡ grammar.at offset (node.For init test post body) }
{
    Stmt {
        offset,
        node: StmtNode::For {
            init: init.into_inner(),
            test: test.into_inner(),
            post: post.into_inner(),
            body,
        },
    }
}

pub fn switch(offset: u32, test: Boxed<Expr>, sections: Items<Section>) -> Stmt
    ensures { result ≡ grammar.at offset (node.Switch test sections) }
{
    Stmt {
        offset,
        node: StmtNode::Switch { test, sections },
    }
}

/// One pair of brackets, with a size or empty.
pub fn one_size(given: Option<Boxed<Expr>>) -> ArraySize
    ensures { result ≡ units.one_size given }
{
    match given {
        None => ArraySize::Open,
        Some(e) => ArraySize::Sized(e),
    }
}

/// The first part of a `for` that declares nothing.
pub fn for_init(given: Option<Boxed<Expr>>) -> ForInit
    ensures { result ≡ grammar.for_init given }
{
    match given {
        None => ForInit::Nothing,
        Some(e) => ForInit::First(e),
    }
}
