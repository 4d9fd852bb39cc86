// The row of a body, found from its instructions.
ghost use Rattle.std.specs.Prelude.{◌≡◌, ◌+◌, ◌-◌, IfOk};
ghost use Rattle.program_trees.specs.ProgramTree.{checked_tree, body_row_tree};
ghost use Rattle.code_types.specs.Places.{pops, pushes, height_after};
ghost use Rattle.code_types.specs.declared.instr.Instr.TheVariants.{Call};
ghost use Rattle.code_scheme.specs.Pieces.{capped};
ghost use Rattle.code_scheme.specs.StatementSite.{parameter_scalars, call_results};
ghost use Rattle.code_scheme.specs.BodyCode.{results_by, heads_of, height_behind, greatest_height, locals_named, most_locals};
ghost use Rattle.expr_gen.specs.Empty.{empty_code};
ghost use Rattle.action_gen.specs.Putting.{site_tree};
ghost use Rattle.code_gen.specs.Bodies.{row_with};

use checked_program::{Body, Checked, Sort};
use chill_base::Item;
use code_types::{BodyRow, Instr};
use expr_gen::{PartRefusal, Site, call_results, first_free, parameter_scalars, uncapped};

/// The row of a body that has these instructions, the first of them at this place.
pub fn row_of(site: Site, first: u32, instrs: &[Instr]) -> Result<BodyRow, PartRefusal>
    ensures { IfOk result (λ row. row ≡ row_with (site_tree site.entry) first instrs.now) }
{
    let params = uncapped(parameter_scalars(site.body))?;
    let least = uncapped(first_free(site.body))?;
    let locals = most_locals(least, instrs)?;
    let results = results_of(site.body)?;
    let height = greatest_height(site.program, instrs)?;
    let listed = site.body.listed.copy()?;
    Ok(BodyRow {
        first,
        params,
        locals,
        results,
        height,
        listed,
    })
}

// How many scalars a call of the body gives back. A process gives none.
fn results_of(body: &Body) -> Result<u32, PartRefusal>
    ensures { let tree = body_row_tree body.now in IfOk result (λ n. n ≡ results_by tree.sort tree) }
{
    match body.sort {
        Sort::Outermost | Sort::Process => Ok(0),
        Sort::Procedure => uncapped(call_results(body)),
    }
}

// How many locals a body has: as many as its instructions name, and at least so many.
fn most_locals(least: u32, instrs: &[Instr]) -> Result<u32, PartRefusal>
    ensures { IfOk result (λ most. most ≡ most_locals least instrs.now) }
{
    let mut most = least;
    for instr in instrs {
        let named = uncapped(locals_named(*instr))?;
        most = most.max(named);
    }
    Ok(most)
}

// How many locals a body has at least that has the instruction.
fn locals_named(instr: Instr) -> u32
    ensures { result ≡ capped (locals_named instr) }
{
    match instr {
        Instr::Local(first, count)
        | Instr::SetLocal(first, count)
        | Instr::LocalAt(first, count)
        | Instr::SetLocalAt(first, count) => first.saturating_add(count),
        _ => 0,
    }
}

// The greatest height of the stack behind some instruction of a body.
fn greatest_height(program: &Checked, instrs: &[Instr]) -> Result<u32, PartRefusal>
    ensures { let heads = heads_of (checked_tree program.now) in IfOk result (λ most. most ≡ greatest_height heads 0 0 instrs.now) }
{
    let mut height = 0u32;
    let mut greatest = 0u32;
    for instr in instrs {
        height = height_behind(program, *instr, height)?;
        greatest = greatest.max(height);
    }
    Ok(greatest)
}

// The height behind an instruction that finds one. Nothing is on the stack behind a Return.
fn height_behind(program: &Checked, instr: Instr, height: u32) -> Result<u32, PartRefusal>
    ensures { let heads = heads_of (checked_tree program.now) in IfOk result (λ behind. behind ≡ height_behind heads instr height) }
{
    match instr {
        Instr::Return => Ok(0),
        Instr::Call(body) => height_behind_call(program, body, height),
        _ => height_behind_plain(instr, height),
    }
}

// The height behind an instruction other than Call and Return.
fn height_behind_plain(instr: Instr, height: u32) -> Result<u32, PartRefusal>
    ensures { IfOk result (λ behind. behind ≡ height_after empty_code 0 instr height) }
{
    let taken = taken(instr);
    let given = given(instr);
    uncapped(height.saturating_sub(taken).saturating_add(given))
}

// The height behind a call; one of no body leaves it.
fn height_behind_call(program: &Checked, body: u32, height: u32) -> Result<u32, PartRefusal>
    ensures { let heads = heads_of (checked_tree program.now) in IfOk result (λ behind. behind ≡ height_behind heads (Call body) height) }
{
    match program.bodies.as_slice().get(body as usize) {
        Some(callee) => height_over(callee, height),
        None => Ok(height),
    }
}

// The height behind a call of this body, which takes its parameters and gives its results.
fn height_over(callee: &Body, height: u32) -> Result<u32, PartRefusal>
    ensures { let tree = body_row_tree callee.now in
        IfOk result (λ behind. behind ≡ height - parameter_scalars tree + call_results tree) }
{
    let taken = uncapped(parameter_scalars(callee))?;
    let given = uncapped(call_results(callee))?;
    uncapped(height.saturating_sub(taken).saturating_add(given))
}

// How many numbers an instruction other than Call and Return takes off the stack.
fn taken(instr: Instr) -> u32
    ensures { result ≡ capped (pops empty_code 0 instr) }
{
    match instr {
        Instr::Pop(count) | Instr::SetLocal(_, count) => count,
        Instr::Send(_, count, _) | Instr::Start(_, count) | Instr::PutText(count) => count,
        Instr::Part(_, _, of) => of,
        Instr::SetLocalAt(_, count) | Instr::Write(_, _, count) => count.saturating_add(1),
        Instr::PartAt(_, of) => of.saturating_add(1),
        Instr::Signal(_, count, true, _) => count.saturating_add(1),
        Instr::Signal(_, count, false, _) => count,
        Instr::Same(count) | Instr::Less(count) => count.saturating_mul(2),
        Instr::Delay(count, _) => count.saturating_mul(2),
        Instr::Take(count, _) | Instr::Hear(count, _) => count.saturating_mul(3),
        Instr::LocalAt(_, _) | Instr::Index(_, _, _) | Instr::Read(_, _, _) => 1,
        Instr::Neg | Instr::Abs | Instr::Succ(_) | Instr::Pred(_) | Instr::Not => 1,
        Instr::BitNot(_) | Instr::Card | Instr::Least | Instr::Most => 1,
        Instr::Unless(_) | Instr::PutInt => 1,
        Instr::Add | Instr::Sub | Instr::Mul | Instr::Div | Instr::Mod | Instr::Rem => 2,
        Instr::And | Instr::Or | Instr::Xor => 2,
        Instr::BitAnd | Instr::BitOr | Instr::BitXor | Instr::BitMinus => 2,
        Instr::Within | Instr::Has | Instr::Span => 2,
        Instr::Push(_) | Instr::Copy(_) | Instr::Thing(_) | Instr::Local(_, _) => 0,
        Instr::Check(_, _) | Instr::This | Instr::GetInt => 0,
        Instr::Jump(_) | Instr::Again(_) | Instr::Call(_) | Instr::Return => 0,
        Instr::Enter(_) | Instr::Leave(_) | Instr::Raise(_) | Instr::Continue(_) => 0,
        Instr::PutLine | Instr::Stop | Instr::Finish => 0,
    }
}

// How many numbers an instruction other than Call puts onto the stack.
fn given(instr: Instr) -> u32
    ensures { result ≡ pushes empty_code instr }
{
    match instr {
        Instr::Copy(count) | Instr::Local(_, count) | Instr::LocalAt(_, count) => count,
        Instr::Part(_, count, _) | Instr::PartAt(count, _) | Instr::Read(_, _, count) => count,
        Instr::Delay(_, _) | Instr::Take(_, _) | Instr::Hear(_, _) => 2,
        Instr::Push(_) | Instr::Thing(_) | Instr::This | Instr::GetInt => 1,
        Instr::Index(_, _, _) | Instr::Start(_, _) => 1,
        Instr::Add | Instr::Sub | Instr::Mul | Instr::Div | Instr::Mod | Instr::Rem => 1,
        Instr::Neg | Instr::Abs | Instr::Succ(_) | Instr::Pred(_) => 1,
        Instr::Same(_) | Instr::Less(_) => 1,
        Instr::Not | Instr::And | Instr::Or | Instr::Xor => 1,
        Instr::BitNot(_) | Instr::Card | Instr::Least | Instr::Most => 1,
        Instr::BitAnd | Instr::BitOr | Instr::BitXor | Instr::BitMinus => 1,
        Instr::Within | Instr::Has | Instr::Span => 1,
        Instr::Pop(_) | Instr::SetLocal(_, _) | Instr::SetLocalAt(_, _) | Instr::Check(_, _) => 0,
        Instr::Jump(_) | Instr::Unless(_) | Instr::Again(_) | Instr::Call(_) | Instr::Return => 0,
        Instr::Enter(_) | Instr::Leave(_) | Instr::Raise(_) | Instr::Write(_, _, _) => 0,
        Instr::Continue(_) | Instr::Send(_, _, _) | Instr::Signal(_, _, _, _) => 0,
        Instr::PutInt | Instr::PutText(_) | Instr::PutLine | Instr::Stop | Instr::Finish => 0,
    }
}
