// What controls a loop, as a text.
use crate::page::Page;
use crate::print_values::put_expr;
use checked_program::{Control, Expr};
use chill_base::Memory;

/// Puts what controls a loop.
pub fn put_control(page: &mut Page, own: &Control) -> Result<(), Memory> {
    match own {
        Control::While(condition) => put_behind(page, "while ", condition),
        Control::Forever => page.put("for ever"),
        Control::Members {
            counter,
            set,
            low,
            condition,
        } => {
            page.put_with("for local ", *counter)?;
            put_behind(page, " in ", set)?;
            page.put(" from ")?;
            page.put_number(*low)?;
            put_some(page, " while ", condition)
        }
        Control::Steps {
            counter,
            start,
            step,
            end,
            down,
            condition,
        } => {
            page.put_with("for local ", *counter)?;
            put_behind(page, " from ", start)?;
            put_some(page, " by ", step)?;
            page.put_if(" down", *down)?;
            put_behind(page, " to ", end)?;
            put_some(page, " while ", condition)
        }
    }
}

fn put_behind(page: &mut Page, word: &str, own: &Expr) -> Result<(), Memory> {
    page.put(word)?;
    put_expr(page, own)
}

fn put_some(page: &mut Page, word: &str, own: &Option<Box<Expr>>) -> Result<(), Memory> {
    match own {
        None => Ok(()),
        Some(own) => put_behind(page, word, own),
    }
}
