//! Reads an expression of constants, and prints its value. It has numbers, strings, `true`, `false`, parentheses,
//! conditions, and operators on values of one kind.
#![tactic(auto)]

use literal_values::number::{number, number_text};
use literal_values::string::string_text;
use reporting::expr::read_expr;
use reporting::{Refusal, report};
use std::alloc::{AllocError, Global};
use std::io;
use std::process::ExitCode;
use swc_ecma_parser::bodies::token_body::TokenBody;
use swc_ecma_parser::prelude::*;

#[derive(Drop)]
enum Value {
    Number(f64),
    Text(String),
    Bool(bool),
}

fn is_true(value: &Value) -> bool {
    match value {
        Value::Number(number) => *number != 0.0 && !number.is_nan(),
        Value::Text(text) => !text.is_empty(),
        Value::Bool(value) => *value,
    }
}

fn has_text(left: &Value, right: &Value) -> bool {
    matches!((left, right), (Value::Text(_), _) | (_, Value::Text(_)))
}

fn text_of(alloc: Global, value: &Value) -> Result<String, AllocError> {
    match value {
        Value::Number(value) => number_text(alloc, *value),
        Value::Text(text) => String::from_str(alloc, text.as_str()),
        Value::Bool(value) => String::from_str(alloc, if *value { "true" } else { "false" }),
    }
}

fn copied(alloc: Global, value: &Value) -> Result<Value, AllocError> {
    match value {
        Value::Number(number) => Ok(Value::Number(*number)),
        Value::Text(_) => Ok(Value::Text(text_of(alloc, value)?)),
        Value::Bool(value) => Ok(Value::Bool(*value)),
    }
}

fn unary(op: UnaryOp, value: &Value) -> Option<Value> {
    match (op, value) {
        (UnaryOp::Bang, _) => Some(Value::Bool(!is_true(value))),
        (UnaryOp::Minus, Value::Number(number)) => Some(Value::Number(-*number)),
        (UnaryOp::Plus, Value::Number(number)) => Some(Value::Number(*number)),
        _ => None,
    }
}

fn of_numbers(op: BinaryOp, left: f64, right: f64) -> Option<Value> {
    match op {
        BinaryOp::Add => Some(Value::Number(left + right)),
        BinaryOp::Sub => Some(Value::Number(left - right)),
        BinaryOp::Mul => Some(Value::Number(left * right)),
        BinaryOp::Div => Some(Value::Number(left / right)),
        BinaryOp::Lt => Some(Value::Bool(left < right)),
        BinaryOp::Gt => Some(Value::Bool(left > right)),
        BinaryOp::EqEqEq => Some(Value::Bool(left == right)),
        BinaryOp::NotEqEq => Some(Value::Bool(left != right)),
        _ => None,
    }
}

/// The value of a node, by those of the nodes before it; `None` where it isn't one of constants.
fn value_of(
    alloc: Global,
    node: &Node<TokenBody, TokenBody, TokenBody>,
    values: &[Option<Value>],
) -> Result<Option<Value>, AllocError> {
    let at = |id: ExprId| values.get(id.0)?.as_ref();
    let same = match node {
        Node::Num(literal) => return Ok(number(alloc, literal.raw.as_str())?.map(Value::Number)),
        Node::Str(literal) => return Ok(string_text(alloc, literal.raw.as_str())?.map(Value::Text)),
        Node::Bool(literal) => return Ok(Some(Value::Bool(literal.value))),
        Node::Unary { op, arg, .. } => return Ok(at(*arg).and_then(|value| unary(*op, value))),
        Node::Paren(paren) => at(paren.expr),
        Node::Cond {
            test,
            cons,
            alt,
            ..
        } => at(*test).and_then(|test| at(if is_true(test) { *cons } else { *alt })),
        Node::Bin {
            op,
            left,
            right,
            ..
        } => match (op, at(*left), at(*right)) {
            (BinaryOp::LogicalAnd, Some(left), right) if is_true(left) => right,
            (BinaryOp::LogicalOr, Some(left), right) if !is_true(left) => right,
            (BinaryOp::LogicalAnd | BinaryOp::LogicalOr, left, _) => left,
            (_, Some(Value::Number(left)), Some(Value::Number(right))) => {
                return Ok(of_numbers(*op, *left, *right));
            }
            (BinaryOp::Add, Some(left), Some(right)) if has_text(left, right) => {
                let (left, right) = (text_of(alloc, left)?, text_of(alloc, right)?);
                return Ok(Some(Value::Text(format!(in alloc; "{left}{right}")?)));
            }
            _ => None,
        },
        _ => None,
    };
    same.map(|value| copied(alloc, value)).transpose()
}

/// The value of an expression, by those of its parts, which come before it.
fn evaluate(alloc: Global, text: &str) -> Result<Option<Value>, Refusal> {
    let (nodes, expr) = read_expr(alloc, text, Context::script())?;
    let mut values = Vec::new(alloc);
    for number in 0..nodes.len() {
        if let Some(node) = nodes.node(ExprId(number)) {
            let value = value_of(alloc, node, &values)?;
            values.push(value)?;
        }
    }
    Ok(values.into_iter().nth(expr.0).flatten())
}

fn main(rt: HostRuntime) -> io::Result<ExitCode> {
    let text = io::read_to_string(rt.alloc(), rt.reader())?;
    match evaluate(rt.alloc(), text.as_str()) {
        Ok(Some(value)) => println!(rt; "{}", text_of(rt.alloc(), &value)?)?,
        Ok(None) => println!(rt; "no constant")?,
        Err(refusal) => return Ok(ExitCode::from(report(&rt, text.as_bytes(), &refusal))),
    }
    Ok(ExitCode::SUCCESS)
}
