// What calls declare: properties with their widths, host codes and spans.
use crate::name::Name;

/// How many bits a property has.
#[derive(Clone, Copy, Debug, PartialEq, Eq)]
pub enum Width {
    W8,
    W16,
    W32,
    W64,
}

/// A property: its name and its width.
#[derive(Debug, Drop)]
pub struct PropDecl {
    pub name: Name,
    pub width: Width,
}

/// A host code: its name, and whether it is asked with the number that the edge carried.
#[derive(Debug, Drop)]
pub struct HostDecl {
    pub name: Name,
    pub value: bool,
}

/// A span: its name.
#[derive(Debug, Drop)]
pub struct SpanDecl {
    pub name: Name,
}
