/// What can be run.
#[derive(Clone, Copy)]
pub enum Task {
    /// Counts the five-card hands of the pack by category.
    FiveCardHands,
    /// Ranks the hands of drawn deals.
    BestOfSeven,
    /// Draws the same deals alone.
    Draws,
    /// Ranks all seven-card hands with two fixed cards, by counts.
    SevensByCounts,
    /// Ranks the same hands, by all fives.
    SevensByFives,
    /// Ranks the same hands and a million drawn ones by both, and counts where they differ.
    Sevens,
    /// Compares decks that are read with those that are drawn.
    Decks,
    /// Plays short hands.
    ShortHands,
    /// Plays hands as long as they can be.
    LongHands,
    /// Writes frames.
    Encode,
    /// Reads frames.
    Decode,
    /// Reads frames, and compares what they read as with what stands beside them.
    Frames,
    /// Counts promises.
    Promises,
    /// Counts answers that a command was accepted.
    Answers,
    /// Refuses proposals.
    Refusals,
    /// Plays 1000 matches of 10 hands on three nodes.
    Nodes,
    /// Plays as many on five nodes.
    NodesFive,
    /// Plays as many on seven nodes.
    NodesSeven,
    /// Makes nodes' stores over disks that fail.
    Creations,
    /// Drives a cluster by lines, over disks in memory with fuses.
    FusedCluster,
    /// Drives a cluster by lines, over disks in memory of which one call fails.
    FailingCluster,
    /// Drives a cluster by lines, over files that are made anew.
    NewFileCluster,
    /// Drives a cluster by lines, over files that have stores.
    FileCluster,
    /// Runs simulated processes of a match by a script.
    Simulate,
    /// Appends one promise to a store on a file.
    Append,
    /// Appends many promises to a store on a file.
    Appends,
    /// Writes a journal of 10,000 records.
    ShortJournal,
    /// Writes a journal of 1,000,000 records.
    LongJournal,
    /// Opens the store of the short journal.
    OpenShort,
    /// Opens the store of the long journal.
    OpenLong,
}

/// The names of all that can be run.
static NAMES: [(&str, Task); 30] = [
    ("five-card-hands", Task::FiveCardHands),
    ("best-of-seven", Task::BestOfSeven),
    ("sevens-by-counts", Task::SevensByCounts),
    ("sevens-by-fives", Task::SevensByFives),
    ("sevens", Task::Sevens),
    ("draws", Task::Draws),
    ("decks", Task::Decks),
    ("short-hands", Task::ShortHands),
    ("long-hands", Task::LongHands),
    ("encode", Task::Encode),
    ("decode", Task::Decode),
    ("frames", Task::Frames),
    ("promises", Task::Promises),
    ("answers", Task::Answers),
    ("refusals", Task::Refusals),
    ("nodes", Task::Nodes),
    ("nodes-five", Task::NodesFive),
    ("nodes-seven", Task::NodesSeven),
    ("creations", Task::Creations),
    ("fused-cluster", Task::FusedCluster),
    ("failing-cluster", Task::FailingCluster),
    ("new-file-cluster", Task::NewFileCluster),
    ("file-cluster", Task::FileCluster),
    ("simulate", Task::Simulate),
    ("store-append", Task::Append),
    ("store-appends", Task::Appends),
    ("store-short", Task::ShortJournal),
    ("store-long", Task::LongJournal),
    ("store-open-short", Task::OpenShort),
    ("store-open-long", Task::OpenLong),
];

impl Task {
    /// The task of a name.
    pub fn named(name: &str) -> Option<Task> {
        for (known, task) in &NAMES {
            if *known == name {
                return Some(*task);
            }
        }
        None
    }
}
