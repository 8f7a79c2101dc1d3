//! What the limits of an office count.
ghost use Rattle.std.specs.Prelude.{◌≡◌, ◌⊎◌, codes};
ghost use Rattle.rbac_sets.specs.Kind.{limit_of, word_of};

/// What a limit counts.
#[derive(Clone, Copy, Debug, PartialEq, Eq)]
pub enum Kind {
    /// Users of an office.
    User,
    /// Roles of an office.
    Role,
    /// Objects of an office.
    Object,
    /// Permissions of an office: pairs of an object and an operation.
    Permission,
    /// Grants of an office: a permission and the role that it is granted to.
    Grant,
    /// Assignments of an office: a user and the role that it is assigned to.
    Assignment,
    /// Immediate inheritances of an office.
    Edge,
    /// Static separation of duty sets of an office.
    SsdSet,
    /// Dynamic separation of duty sets of an office.
    DsdSet,
    /// Members of one separation of duty set.
    Member,
    /// Sessions of an office.
    Session,
    /// Activated roles of one session.
    ActiveRole,
    /// Records of one import.
    Record,
    /// Bytes of one file of assignments.
    Byte,
}

impl Kind {
    /// The name of this kind in a refusal.
    pub fn name(self) -> &'static str
        ensures { result.now ≡ word_of self }
    {
        match self {
            Kind::User => "user",
            Kind::Role => "role",
            Kind::Object => "object",
            Kind::Permission => "permission",
            Kind::Grant => "grant",
            Kind::Assignment => "assignment",
            Kind::Edge => "edge",
            Kind::SsdSet => "ssdSet",
            Kind::DsdSet => "dsdSet",
            Kind::Member => "member",
            Kind::Session => "session",
            Kind::ActiveRole => "activeRole",
            Kind::Record => "record",
            Kind::Byte => "byte",
        }
    }

    /// The limit of what this kind counts, in an office of `version`, which is 1 or 2. Version 2 allows
    /// more users, roles and immediate inheritances. The limits of records and bytes are those of one
    /// import and one file of assignments.
    pub fn limit(self, version: u32) -> u32
        requires { (version ≡ 1) ⊎ (version ≡ 2) }
        ensures { result ≡ limit_of self version }
    {
        match self {
            Kind::User if version == 1 => 5_000,
            Kind::User => 20_000,
            Kind::Role if version == 1 => 256,
            Kind::Role => 1_024,
            Kind::Object => 2_000,
            Kind::Permission => 5_000,
            Kind::Grant => 20_000,
            Kind::Assignment => 20_000,
            Kind::Edge if version == 1 => 1_024,
            Kind::Edge => 4_096,
            Kind::SsdSet | Kind::DsdSet => 64,
            Kind::Member => 32,
            Kind::Session => 1_000,
            Kind::ActiveRole => 32,
            Kind::Record => 10_000,
            Kind::Byte => 2_097_152,
        }
    }
}
