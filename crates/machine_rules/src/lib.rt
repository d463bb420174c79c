// The bounded machine. The rules are in specs/; these are the types that they share with the code, and how the tally is kept up.
#![tactic(auto)]

ghost use Rattle.std.specs.Prelude.{◌≡◌, ◌<◌};
ghost use Rattle.machine_rules.specs.Steps.{start_tally, created, called, returned, worked};

// How a run ended, in the order of the paper's numbers 0 to 3.
#[derive(Clone, Copy, Debug, PartialEq, Eq)]
pub enum Outcome {
    Done,
    Spent,
    StoreFull,
    StackFull,
}

// The counts that a run keeps up: steps taken, objects made, frames on the stack. They are words, so that each stays in a
// register of its own.
#[derive(Clone, Copy, Debug, PartialEq, Eq)]
pub struct Tally {
    pub steps: usize,
    pub objects: usize,
    pub frames: usize,
}

impl Tally {
    // The places of the store.
    pub const PLACES: usize = 256;

    // The frames of the stack, main's included.
    pub const STACK: usize = 64;

    // No step taken, the devices as objects, and main's frame.
    pub fn start(devices: usize) -> Tally
        ensures { result ≡ start_tally devices }
    {
        Tally {
            steps: 0,
            objects: devices,
            frames: 1,
        }
    }

    // Counts a step that made an object.
    pub fn add_object(&mut self)
        requires { (self.old.steps < 4294967295) × (self.old.objects < 256) }
        ensures { self.new ≡ created self.old }
    {
        self.steps += 1;
        self.objects += 1;
    }

    // Counts a step that called.
    pub fn add_frame(&mut self)
        requires { (self.old.steps < 4294967295) × (self.old.frames < 64) }
        ensures { self.new ≡ called self.old }
    {
        self.steps += 1;
        self.frames += 1;
    }

    // Counts a step that returned.
    pub fn drop_frame(&mut self)
        requires { (self.old.steps < 4294967295) × (0 < self.old.frames) }
        ensures { self.new ≡ returned self.old }
    {
        self.steps += 1;
        self.frames -= 1;
    }

    // Counts any other step.
    pub fn add_step(&mut self)
        requires { self.old.steps < 4294967295 }
        ensures { self.new ≡ worked self.old }
    {
        self.steps += 1;
    }

    // The tally after a step that made an object.
    pub fn with_object(mut self) -> Tally
        requires { (self.steps < 4294967295) × (self.objects < 256) }
        ensures { result ≡ created self }
    {
        self.add_object();
        self
    }

    // The tally after a step that called.
    pub fn with_frame(mut self) -> Tally
        requires { (self.steps < 4294967295) × (self.frames < 64) }
        ensures { result ≡ called self }
    {
        self.add_frame();
        self
    }

    // The tally after a step that returned.
    pub fn without_frame(mut self) -> Tally
        requires { (self.steps < 4294967295) × (0 < self.frames) }
        ensures { result ≡ returned self }
    {
        self.drop_frame();
        self
    }

    // The tally after any other step.
    pub fn with_step(mut self) -> Tally
        requires { self.steps < 4294967295 }
        ensures { result ≡ worked self }
    {
        self.add_step();
        self
    }
}

// What a run answers; the value of an unfinished run is 65,535.
#[derive(Clone, Copy, Debug, PartialEq, Eq)]
pub struct RunAnswer {
    pub outcome: Outcome,
    pub steps: u32,
    pub value: u16,
    pub objects: u16,
}
