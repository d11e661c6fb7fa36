use node_links::Settings;

/// What a process is told of its match beside its node.
#[derive(Clone, Copy, Debug)]
pub struct Terms {
    /// How long a seat may hold the table, in whole microseconds, until it is played for, a day at most; without it nobody is.
    pub patience: Option<u64>,
    /// How long seats are waited for that haven't come yet, in whole microseconds, before anybody is played for.
    pub start: u64,
    /// A seat at which nobody is may be given up: it is then waited for only shortly.
    pub gives_up: bool,
    /// What its match file says beside, which peers are told too; without it nothing is compared with what they tell.
    pub settings: Option<Settings>,
}
