//! Places in a scenario's document.

/// The members of the document.
#[derive(Clone, Copy, Debug, PartialEq, Eq)]
pub enum Member {
    /// The list of announcements.
    Announcements,
    /// The list of policies.
    Policies,
    /// The leakers of each round after the first.
    Leaks,
    /// The list of watched addresses.
    Watch,
}

impl Member {
    ghost use Rattle.std.specs.Prelude.{◌≡◌};
    ghost use Rattle.scenario_text.specs.Places.{member_name};

    /// Its name in the document.
    pub(crate) fn name(self) -> &'static str
        ensures { result.now ≡ member_name self }
    {
        match self {
            Member::Announcements => "announcements",
            Member::Policies => "policies",
            Member::Leaks => "leaks",
            Member::Watch => "watch",
        }
    }
}

/// The members of an announcement and of a policy.
#[derive(Clone, Copy, Debug, PartialEq, Eq)]
pub enum PartOf {
    /// The prefix of an announcement.
    Prefix,
    /// The number of the AS.
    Number,
    /// The path of an announcement.
    Path,
    /// The name of a policy.
    Policy,
}

impl PartOf {
    ghost use Rattle.std.specs.Prelude.{◌≡◌};
    ghost use Rattle.scenario_text.specs.Places.{part_name};

    /// Its name in the object.
    pub(crate) fn name(self) -> &'static str
        ensures { result.now ≡ part_name self }
    {
        match self {
            PartOf::Prefix => "prefix",
            PartOf::Number => "as",
            PartOf::Path => "path",
            PartOf::Policy => "policy",
        }
    }
}

/// A place in a document: the document itself where there is no member. Positions count from 0.
#[derive(Clone, Copy, Debug, PartialEq, Eq)]
pub struct Place {
    /// The member of the document.
    pub member: Option<Member>,
    /// The position in the member's list.
    pub first: Option<usize>,
    /// The member of the object at that position.
    pub part: Option<PartOf>,
    /// The position in the list that stands there.
    pub second: Option<usize>,
}

impl Place {
    ghost use Rattle.std.specs.Prelude.{◌≡◌};
    ghost use Rattle.scenario_text.specs.Places.{document, in_member, item, in_part, name_at};

    /// The document itself.
    pub fn document() -> Place
        ensures { result ≡ document }
    {
        Place {
            member: None,
            first: None,
            part: None,
            second: None,
        }
    }

    /// A member of the document.
    pub fn member(member: Member) -> Place
        ensures { result ≡ in_member member }
    {
        Place {
            member: Some(member),
            first: None,
            part: None,
            second: None,
        }
    }

    /// The item at this position of the list that stands there: a member's list, or a list within one of its items.
    pub fn item(self, index: usize) -> Place
        ensures { result ≡ item self index }
    {
        match self.first {
            None => Place {
                first: Some(index),
                ..self
            },
            Some(_) => Place {
                second: Some(index),
                ..self
            },
        }
    }

    /// A member of the object that stands there.
    pub fn part(self, part: PartOf) -> Place
        ensures { result ≡ in_part self part }
    {
        Place {
            part: Some(part),
            ..self
        }
    }
    /// The name of the member that stands there; the document itself has none.
    pub(crate) fn name(self) -> &'static str
        ensures { result.now ≡ name_at self }
    {
        match (self.part, self.member) {
            (Some(part), _) => part.name(),
            (None, Some(member)) => member.name(),
            (None, None) => "",
        }
    }
}
