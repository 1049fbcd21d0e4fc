ghost use Rattle.std.specs.Prelude.{◌≡◌};
ghost use Rattle.std.specs.Option.{option_map};
ghost use Rattle.lending.specs.Layers.{Own};
ghost use Rattle.lending.specs.Answers.{reason_number};
ghost use Rattle.layer.specs.Requests.{request_meant};

use lending::Reason;
use office::Office;

/// What a layer may object to.
#[derive(Clone, Copy)]
pub enum Request {
    Open { resource: u16, holder: u16 },
    Delegate { lender: u16, holder: u16, due: u16 },
    Assign { lease: u16, holder: u16 },
}

/// What a layer adds to an office: its own objections.
pub trait Rule<O: Office> {
    /// What it does of its own: what it objects to, by the roll and today of the office below.
    ghost own: { Self → Own O.Kind };

    /// The reason why it objects to a request, if it does.
    fn objection(&self, below: &O, request: Request) -> Option<Reason>
        ensures { option_map reason_number result
            ≡ (own self.now).objects (O.meaning below.now).core.roll (O.meaning below.now).core.today
            (request_meant request) };
}
