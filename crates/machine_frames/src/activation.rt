// A frame of the machine, with the memory of its stack and its locals.
ghost use Rattle.std.specs.Prelude.{◌≡◌, ◌+◌, ◌<◌, ◌≤◌, ◌∷◌, ◌++◌, [], length, take, drop};
ghost use Rattle.code_types.specs.Actions.{result_or, Pushes};
ghost use Rattle.code_types.specs.Operands.{below_topmost, topmost};
ghost use Rattle.code_types.specs.Steps.{moved};
ghost use Rattle.world_model.specs.Lists.{with_scalars};
ghost use Rattle.machine_frames.specs.Frames.{Acts, IsReady, KeepsRoom, frame_of};

use kernel_base::Exc;

/// What came of an instruction.
#[derive(Clone, Copy)]
pub enum Acted {
    /// The frame goes on.
    GoesOn,
    /// A tick is made, and the frame goes on.
    Ticks,
    /// An exception is raised, and the frame stays.
    Raises(Exc),
    /// The instruction asks more than its frame, which stays.
    Elsewhere,
}

/// A frame: its body, the place of its instruction, its stack with the topmost number last, and its locals.
#[derive(Drop)]
pub struct Activation {
    pub body: u32,
    pub place: usize,
    pub stack: Vec<i64>,
    pub locals: Vec<i64>,
}

impl Activation {
    /// The topmost number.
    pub fn one(&self) -> i64
        requires { 1 ≤ length self.now.stack.items }
        ensures { topmost 1 self.now.stack.items ≡ result ∷ [] }
    {
        self.stack[self.stack.len() - 1]
    }

    /// The two topmost numbers, the lower first.
    pub fn two(&self) -> (i64, i64)
        requires { 2 ≤ length self.now.stack.items }
        ensures { topmost 2 self.now.stack.items ≡ result.0 ∷ result.1 ∷ [] }
    {
        let height = self.stack.len();
        (self.stack[height - 2], self.stack[height - 1])
    }

    /// Takes so many numbers off the stack, puts one, and goes on.
    pub fn replace(&mut self, count: usize, number: i64)
        requires { IsReady count 1 self.old }
        ensures frame { frame_of self.new ≡ moved (frame_of self.old) (self.old.place + 1) (below_topmost count self.old.stack.items ++ number ∷ []) }
        ensures room { KeepsRoom self.old self.new }
    {
        self.stack.truncate(self.stack.len() - count);
        self.stack.push(number).unwrap();
        self.place += 1;
    }

    /// Takes so many numbers off the stack and puts the result, or raises the exception where there is none.
    pub fn settle(&mut self, count: usize, value: Option<i64>, exception: Exc) -> Acted
        requires { IsReady count 1 self.old }
        ensures acts { Acts (below_topmost count self.old.stack.items) (frame_of self.old) (frame_of self.new) result (result_or exception value) }
        ensures room { KeepsRoom self.old self.new }
    {
        match value {
            Some(number) => {
                self.replace(count, number);
                Acted::GoesOn
            }
            None => Acted::Raises(exception),
        }
    }

    /// The number below so many topmost ones.
    pub fn lowest(&self, count: usize) -> i64
        requires { 1 + count ≤ length self.now.stack.items }
        ensures { topmost (1 + count) self.now.stack.items ≡ result ∷ topmost count self.now.stack.items }
    {
        self.stack[self.stack.len() - count - 1]
    }

    /// Takes so many numbers off the stack, and goes on.
    pub fn drop_numbers(&mut self, count: usize)
        requires { IsReady count 0 self.old }
        ensures frame { frame_of self.new ≡ moved (frame_of self.old) (self.old.place + 1) (below_topmost count self.old.stack.items) }
        ensures room { KeepsRoom self.old self.new }
    {
        self.stack.truncate(self.stack.len() - count);
        self.place += 1;
    }

    /// Takes so many numbers off the stack, puts locals from one on, and goes on.
    pub fn fetch(&mut self, taken: usize, start: usize, count: usize)
        requires ready { IsReady taken count self.old }
        requires inside { start + count ≤ length self.old.locals.items }
        ensures frame { frame_of self.new ≡ moved (frame_of self.old) (self.old.place + 1) (below_topmost taken self.old.stack.items ++ take count (drop start self.old.locals.items)) }
        ensures room { KeepsRoom self.old self.new }
    {
        self.stack.truncate(self.stack.len() - taken);
        self.stack
            .extend_from_slice(&self.locals[start..start + count])
            .unwrap();
        self.place += 1;
    }

    /// Takes the topmost numbers off the stack, the last `count` of them into locals from one on, and goes on.
    pub fn store(&mut self, taken: usize, start: usize, count: usize)
        requires ready { IsReady taken 0 self.old }
        requires among { count ≤ taken }
        requires inside { start + count ≤ length self.old.locals.items }
        ensures frame { frame_of self.new ≡ record (moved (frame_of self.old) (self.old.place + 1) (below_topmost taken self.old.stack.items)) { locals = with_scalars self.old.locals.items start (topmost count self.old.stack.items) } }
        ensures room { KeepsRoom self.old self.new }
    {
        let height = self.stack.len();
        self.locals[start..start + count].copy_from_slice(&self.stack[height - count..]);
        self.stack.truncate(height - taken);
        self.place += 1;
    }

    /// Keeps a part of so many numbers that lie below some topmost ones, which go, and goes on.
    pub fn keep(&mut self, of: usize, above: usize, first: usize, count: usize)
        requires ready { IsReady (of + above) count self.old }
        requires inside { first + count ≤ of }
        ensures frame { frame_of self.new ≡ moved (frame_of self.old) (self.old.place + 1) (below_topmost (of + above) self.old.stack.items ++ take count (drop first (topmost (of + above) self.old.stack.items))) }
        ensures room { KeepsRoom self.old self.new }
    {
        let base = self.stack.len() - of - above;
        let start = base + first;
        self.stack.copy_within(start..start + count, base);
        self.stack.truncate(base + count);
        self.place += 1;
    }
}
