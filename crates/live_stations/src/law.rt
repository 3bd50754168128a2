//! What the lines of several stations come to in one day.

ghost use Rattle.std.specs.Prelude.{◌≡◌, ◌≤◌, ℕ, Bool, List, Some, length};
ghost use Rattle.catalogue_core.specs.Replay.{History, Opened};
ghost use Rattle.folders.specs.Files.{IsFileOf};
ghost use Rattle.folders.specs.declared.named.NamedFile.{NamedFile};
ghost use Rattle.live_day.specs.Sessions.{AreObeyed, Told};
ghost use Rattle.live_program.specs.Openings.{AreTablesOpened};
ghost use Rattle.live_stations.specs.Done.{AreDone, AreNamed, AskNothing};
ghost use Rattle.live_stations.specs.Items.{item_lines, Item};
ghost use Rattle.live_stations.specs.Setups.{NamesLive};

/// Where a day obeys what it read of so many stations, and its tables were opened for as many at least, each line was done as one of the
/// station that said it, and told to that station.
pub fn lines_are_done_for_who_said_them()
    ensures done { (items : List Item) (count seated next : ℕ) (old new : History) (told : List Told) → AreObeyed (item_lines items) seated old next new told
        → AreNamed count items → count ≤ old.opened.stations → AskNothing items → AreDone seated items old new told }
{}

/// Where the text of a setup names live stations, the tables of that setup are opened for as many stations.
pub fn tables_are_opened_for_live_stations()
    ensures seats { (files : List NamedFile) (setup text : List ℕ) (paths : List (List ℕ)) (reindex : Bool) (opened : Opened)
        → IsFileOf (Some files) setup text → NamesLive text paths → AreTablesOpened (Some files) setup reindex opened
        → opened.stations ≡ length paths }
{}
