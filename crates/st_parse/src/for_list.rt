//! What a FOR runs over.

use plc_tree::tree::Expr;

/// Start, limit and step of FOR (IEC 61131-3, Annex B.3.2.4, `for_list`).
#[derive(Drop)]
pub struct ForList {
    pub start: Expr,
    pub limit: Expr,
    /// Behind BY.
    pub step: Option<Expr>,
}
