// What a program defines by a name with parameters.
use crate::forms::Forms;
use std::sync::ArcStr;

/// A function that a program defined: the namespace in which its body is resolved, its name, its
/// parameters' names and the forms of its body.
#[derive(Debug, Drop)]
pub struct Function {
    pub space: ArcStr,
    pub name: ArcStr,
    pub params: Vec<ArcStr>,
    pub body: Forms,
}
