// Laws of the definitions, each the contract of an empty function: a caller has the law by the
// call.
ghost use Rattle.std.specs.Prelude.{◌≡◌, ℕ, ◌+◌, ◌*◌, ◌^◌, ◌<◌, ◌≤◌, Bool, true, false, ◌&&◌, ◌||◌};
ghost use Rattle.std.specs.Prelude.{◌⊎◌, IsTrue, IsFalse, nat_lt, nat_le, min, if◌then◌else◌, List};
ghost use Rattle.std.specs.Prelude.{[], ◌∷◌, ◌++◌, length, map, take, slice_get, slice_index};
ghost use Rattle.std.specs.Prelude.{slice_index_or, Option, Some, None, pos, negsuc};
ghost use Rattle.std.specs.List.{All, list_all, list_any, filter, flat_map, filter_map};
ghost use Rattle.std.specs.List.{enumerate_from, sum};
ghost use Rattle.std.specs.Option.{option_map_or};
ghost use Rattle.std.specs.List.Sorted.{IsStrictlyIncreasing};
ghost use Rattle.archive_terms.specs.declared.limits.TheConstants.{GREATEST_LOST};
ghost use Rattle.archive_terms.specs.Archive.{Entry, seal, is_valid, is_storable, keeps_order};
ghost use Rattle.archive_terms.specs.Archive.{is_ordered, is_archive, IsArchive, may_follow};
ghost use Rattle.archive_terms.specs.Archive.{frame_time, seal_time, last_time, is_in_order};
ghost use Rattle.archive_terms.specs.Archive.{is_closed};
ghost use Rattle.archive_terms.specs.Selection.{Selection, by_quality, ChannelId, master, virtual};
ghost use Rattle.archive_terms.specs.Selection.{channel_of, admits, is_told, picked};
ghost use Rattle.archive_terms.specs.Selection.{is_stop_closed};
ghost use Rattle.archive_terms.specs.Delivery.{timely, complete, offline, first_position};
ghost use Rattle.archive_terms.specs.Delivery.{selection_of, is_full_of, is_due_of, is_timely};
ghost use Rattle.archive_terms.specs.Delivery.{is_online, Item, archived, backlog, end_of_data};
ghost use Rattle.archive_terms.specs.Delivery.{archived_items, entries_of, is_archived};
ghost use Rattle.archive_terms.specs.Delivery.{is_end_of_data, is_complete, is_short_frame};
ghost use Rattle.archive_terms.specs.Delivery.{buffer_length, IsBuffer, cut, offline_buffers};
ghost use Rattle.archive_terms.specs.Delivery.{all_items, Terms, Delivery, buffer, started};
ghost use Rattle.archive_terms.specs.Rounds.{whole, stall, Link, blocked, waiting, free, fail};
ghost use Rattle.archive_terms.specs.Rounds.{Round, free_round, at_round, after_round, outcome};
ghost use Rattle.archive_terms.specs.Rounds.{ends_run, handed_buffer, picked_at, Outcome, nothing};
ghost use Rattle.archive_terms.specs.Rounds.{handed, kept, discarded, failed, outcomes};
ghost use Rattle.archive_terms.specs.Rounds.{handed_buffers, handed_items, settled_items};
ghost use Rattle.archive_terms.specs.Rounds.{without_backlog, FrontsRise, last_front, to_hand_over};
ghost use Rattle.archive_terms.specs.Rounds.{TimelyShape, after_rounds};
ghost use Rattle.archive_terms.specs.Progress.{unready_at, put_by};
ghost use Rattle.archive_terms.specs.Delivery.{is_late, limit_of};
ghost use Rattle.archive_terms.specs.Rounds.{Answer};
ghost use Rattle.archive_terms.specs.Progress.{taken_rounds, all_keep, is_to_tell, ready_at};
ghost use Rattle.archive_terms.specs.Progress.{still_buffers_at};
ghost use Rattle.archive_terms.specs.Progress.{are_enough_at};
ghost use Rattle.archive_terms.specs.Continuity.{frame_places, last_frame, with_frame_before};
ghost use Rattle.archive_terms.specs.Continuity.{continuity, continuities, told_items};
ghost use Rattle.archive_terms.specs.Continuity.{told_buffers, gap, gaps, lost_of, lost_up_to};
ghost use Rattle.archive_terms.specs.Continuity.{lost_between};
ghost use Rattle.archive_terms.specs.Glimpse.{given, wants_front, all_locks, glimpse};
ghost use Rattle.archive_terms.specs.Placed.{ToldItem, placed_at_start, placed_outcomes};
ghost use Rattle.archive_terms.specs.Examples.{time_of, day_time, small_frame, first, second};
ghost use Rattle.archive_terms.specs.Examples.{third, sealed, mixed, lossy, lossiest, noted};
ghost use Rattle.archive_terms.specs.Examples.{wanted_from, of_channel, with_notices, from_to};
ghost use Rattle.archive_terms.specs.Examples.{all_from, round_on, stalled_round, stream};
ghost use Rattle.archive_terms.specs.Examples.{rounds_of_stream};

/// An archive grows by an entry that may follow it, and a list stays in order behind one that keeps
/// the order of times.
pub fn archive_grows()
    ensures archive { (a : List Entry) (e : Entry)
        → is_archive (a ++ e ∷ []) ≡ (is_archive a && may_follow a e) }
    ensures order { (a : List Entry) (e : Entry)
        → is_ordered (a ++ e ∷ []) ≡ (is_ordered a && keeps_order a e) }
{}

/// Whether an entry keeps the order of times is seen from the last frame's time and the last
/// seal's, and so are whether it may follow an archive and which stops are closed.
pub fn follows_by_last_times()
    ensures order { (a : List Entry) (e : Entry) → IsTrue (is_ordered a) →
        keeps_order a e ≡ is_in_order (last_time frame_time None a) (last_time seal_time None a) e }
    ensures archive { (a : List Entry) (e : Entry) → IsArchive a →
        let last_frame = last_time frame_time None a in
        let last_seal = last_time seal_time None a in
        may_follow a e ≡ (is_storable e && is_in_order last_frame last_seal e) }
    ensures closed { (stop : ℕ) (a : List Entry) → IsTrue (is_ordered a) → is_closed a stop
        ≡ (option_map_or (λ t. nat_lt stop t) (last_time frame_time None a) false
        || option_map_or (λ t. nat_le stop t) (last_time seal_time None a) false) }
{}

/// What a selection picks of an archive is a prefix of what it picks of each longer one.
pub fn picked_grows()
    ensures { (a b : List Entry) (s : Selection)
        → take (length (picked a s)) (picked (a ++ b) s) ≡ picked a s }
{}

/// One entry more is picked or isn't, and the others stay as they were.
pub fn picked_one_more()
    ensures { (a : List Entry) (e : Entry) (s : Selection) →
        picked (a ++ e ∷ []) s
        ≡ picked a s
        ++ (if admits s (length a) e || is_told s a (length a) e then (length a, e) ∷ [] else []) }
{}

/// Without notices, as offline, the picked entries are the admitted frames.
pub fn picked_frames()
    ensures { (a : List Entry) (s : Selection) → IsFalse s.notices
        → picked a s ≡ filter (λ x. admits s x.0 x.1) (enumerate_from 0 a) }
{}

/// Each entry is picked once, in the order of the archive.
pub fn picked_in_order()
    ensures { (a : List Entry) (s : Selection)
        → IsStrictlyIncreasing (map (λ x. x.0) (picked a s)) }
{}

/// Once the stop is closed nothing more is picked, and it stays closed.
pub fn picked_is_final()
    ensures nothing_more { (a b : List Entry) (s : Selection) (stop : ℕ) → s.stop ≡ Some stop
        → IsTrue (is_closed a stop) → IsArchive (a ++ b) → picked (a ++ b) s ≡ picked a s }
    ensures stays_closed { (a b : List Entry) (stop : ℕ) → IsTrue (is_closed a stop)
        → IsTrue (is_closed (a ++ b) stop) }
{}

/// Frames fill a buffer of at most eight items by their number alone, and what is picked of an
/// archive without notices is such frames.
pub fn frames_fill_by_number()
    ensures by_number { (size : ℕ) (items : List Item) → size ≤ 8
        → IsTrue (list_all is_short_frame items)
        → is_complete size items ≡ nat_le size (length items) }
    ensures of_an_archive { (a : List Entry) (s : Selection) → IsFalse s.notices → IsArchive a
        → IsTrue (list_all is_short_frame (archived_items (picked a s))) }
{}

/// A buffer takes the greatest number of the waiting items of which no proper prefix is complete.
pub fn buffer_takes_what_fits()
    ensures within { (size : ℕ) (items : List Item) → buffer_length size items ≤ length items }
    ensures open { (size : ℕ) (items : List Item) (j : ℕ) → j < buffer_length size items
        → IsFalse (is_complete size (take j items)) }
    ensures greatest { (size : ℕ) (items : List Item) → buffer_length size items < length items
        → IsTrue (is_complete size (take (buffer_length size items) items)) }
{}

/// Cutting items into buffers loses none of them; each is a buffer and holds something, and all but
/// the last are complete.
pub fn cut_into_buffers()
    ensures joined { (size : ℕ) (items : List Item) → flat_map (λ b. b) (cut size items) ≡ items }
    ensures buffers { (size : ℕ) (items : List Item) → 0 < size
        → All (IsBuffer size) (cut size items) }
    ensures none_empty { (size : ℕ) (items : List Item) → 0 < size
        → All (λ b. 0 < length b) (cut size items) }
    ensures complete { (size : ℕ) (items : List Item) (k : ℕ) → k + 1 < length (cut size items)
        → IsTrue (is_complete size (slice_index_or (cut size items) k [])) }
{}

/// What a complete or offline delivery hands over is a prefix of what its START is to hand over:
/// its entries are a prefix of the picked ones, and end of data stands last, behind all of them,
/// and only where the stop is closed. It is so for the archive up to the last front, and for each
/// longer one.
pub fn complete_delivery()
    ensures items { (t : Terms) (entries later : List Entry) (rounds : List Round)
        → 0 < t.size → IsFalse (is_timely t.mode) → IsArchive entries → FrontsRise 0 rounds
        → let archive = take (last_front 0 rounds) entries ++ later in
        let done = handed_items (outcomes t entries rounds started) in
        IsArchive archive → take (length done) (to_hand_over t archive) ≡ done }
    ensures entries { (t : Terms) (entries later : List Entry) (rounds : List Round)
        → 0 < t.size → IsFalse (is_timely t.mode) → IsArchive entries → FrontsRise 0 rounds
        → let archive = take (last_front 0 rounds) entries ++ later in
        let done = entries_of (handed_items (outcomes t entries rounds started)) in
        IsArchive archive → take (length done) (picked archive t.selection) ≡ done }
    ensures end_of_data { (t : Terms) (entries later : List Entry) (rounds : List Round)
        → 0 < t.size → IsFalse (is_timely t.mode) → IsArchive entries → FrontsRise 0 rounds
        → let archive = take (last_front 0 rounds) entries ++ later in
        let done = handed_items (outcomes t entries rounds started) in
        IsArchive archive → IsTrue (list_any is_end_of_data done)
        → IsTrue (is_stop_closed t.selection archive)
        × (done ≡ archived_items (picked archive t.selection) ++ end_of_data ∷ []) }
{}

/// What a timely delivery does has its shape, for the archive up to the last front and for each
/// longer one. Where end of data was handed over the stop is closed, and all that is picked was
/// handed over or discarded before.
pub fn timely_delivery()
    ensures shape { (t : Terms) (entries later : List Entry) (rounds : List Round)
        → 0 < t.size → IsTrue (is_timely t.mode) → IsArchive entries → FrontsRise 0 rounds
        → let archive = take (last_front 0 rounds) entries ++ later in
        IsArchive archive → TimelyShape (to_hand_over t archive)
        (outcomes t entries rounds started) }
    ensures end_of_data { (t : Terms) (entries later : List Entry) (rounds : List Round)
        → 0 < t.size → IsTrue (is_timely t.mode) → IsArchive entries → FrontsRise 0 rounds
        → let archive = take (last_front 0 rounds) entries ++ later in
        let done = outcomes t entries rounds started in
        IsArchive archive → IsTrue (list_any is_end_of_data (handed_items done))
        → IsTrue (is_stop_closed t.selection archive)
        × (without_backlog (settled_items done)
        ≡ archived_items (picked archive t.selection) ++ end_of_data ∷ []) }
{}

/// In the shape of a timely delivery nothing is discarded but a buffer that was offered in that
/// round, that the link stalled and that has a picked entry.
pub fn a_discard_was_stalled()
    ensures { (all : List Item) (done : List Outcome) (i : ℕ) (o : Outcome) (items : List Item)
        → TimelyShape all done → slice_get done i ≡ Some o → o.dropped ≡ Some items
        → (o.offer ≡ Some (items, stall)) × IsTrue (list_any is_archived items) }
{}

/// In a prefix of what a START is to hand over the entries are a prefix of the picked ones, and end
/// of data stands last, behind all of them, and only where the stop is closed.
pub fn prefix_of_all_items()
    ensures entries { (entries : List (ℕ × Entry)) (closed : Bool) (items : List Item)
        → take (length items) (all_items entries closed) ≡ items
        → take (length (entries_of items)) entries ≡ entries_of items }
    ensures end_of_data { (entries : List (ℕ × Entry)) (closed : Bool) (items : List Item)
        → take (length items) (all_items entries closed) ≡ items
        → IsTrue (list_any is_end_of_data items)
        → IsTrue closed × (items ≡ archived_items entries ++ end_of_data ∷ []) }
{}

/// What is a prefix of all that a START is to hand over stays one as the archive grows.
pub fn handed_over_stays_a_prefix()
    ensures { (t : Terms) (a b : List Entry) (items : List Item) → IsArchive (a ++ b)
        → take (length items) (to_hand_over t a) ≡ items
        → take (length items) (to_hand_over t (a ++ b)) ≡ items }
{}

/// The buffers of an offline delivery hold a prefix of what its START is to hand over.
pub fn offline_buffers_hold_a_prefix()
    ensures { (size : ℕ) (entries : List (ℕ × Entry)) (closed : Bool) →
        let items = flat_map (λ b. b) (offline_buffers size entries closed) in
        take (length items) (all_items entries closed) ≡ items }
{}

/// A look gives the greatest number of the waiting entries before the last of which neither the
/// room nor the wanted octets were reached; only one number is so.
pub fn given_is_the_greatest()
    ensures within { (room octets : ℕ) (lengths : List ℕ)
        → given room octets lengths ≤ length lengths }
    ensures open { (room octets : ℕ) (lengths : List ℕ) (j : ℕ) → j < given room octets lengths
        → (j < room) × (sum (take j lengths) < octets) }
    ensures greatest { (room octets : ℕ) (lengths : List ℕ)
        → given room octets lengths < length lengths →
        let count = given room octets lengths in
        (room ≤ count) ⊎ (octets ≤ sum (take count lengths)) }
    ensures alone { (room octets k : ℕ) (lengths : List ℕ) → k ≤ length lengths
        → ((j : ℕ) → j < k → (j < room) × (sum (take j lengths) < octets))
        → (k < length lengths → (room ≤ k) ⊎ (octets ≤ sum (take k lengths)))
        → given room octets lengths ≡ k }
{}

/// What a round does by its link: where a block of an earlier round waits it takes no step; where
/// its own block waits, a buffer that is due is fixed and not offered; where none waits, a fixed
/// buffer is offered, and handed over where it is taken; a link that failed ends the run, with
/// nothing handed over in that round.
pub fn rounds_by_link()
    ensures blocked { (t : Terms) (entries : List Entry) (r : Round) (d : Delivery)
        → r.link ≡ blocked
        → (after_round t entries r d ≡ d) × (outcome t entries r d ≡ nothing) }
    ensures waiting { (t : Terms) (entries : List Entry) (r : Round) (d : Delivery)
        → r.link ≡ waiting
        → (after_round t entries r d ≡ at_round t entries r d) × (outcome t entries r d ≡ nothing) }
    ensures taken { (t : Terms) (entries : List Entry) (r : Round) (d : Delivery)
        → r.link ≡ free whole →
        let after = at_round t entries r d in after.fixed ≡ true
        → outcome t entries r d ≡ handed (buffer (picked_at t entries r.front) after) }
    ensures not_due { (t : Terms) (entries : List Entry) (r : Round) (d : Delivery)
        → (at_round t entries r d).fixed ≡ false → outcome t entries r d ≡ nothing }
    ensures failed { (t : Terms) (entries : List Entry) (r : Round) (rounds : List Round)
        (d : Delivery)
        → IsTrue (ends_run t entries r d)
        → (outcomes t entries (r ∷ rounds) d ≡ outcome t entries r d ∷ [])
        × (handed_buffer (outcome t entries r d) ≡ None) }
{}

/// A delivery that remembers a place and the last frame that was handed over, and steps on looks at
/// a growing archive, offers, hands over and discards over any rounds what the one does that counts
/// in the picked list; and what it hands over has the continuities of the whole archive. Its first
/// position is a place of the archive from which the fronts go on.
pub fn places_are_counts()
    ensures steps { (t : Terms) (entries : List Entry) (rounds : List Round)
        → 0 < t.size → IsArchive entries → t.selection.first ≤ length entries
        → FrontsRise t.selection.first rounds
        → map (λ x. x.0) (placed_outcomes t entries rounds (placed_at_start t))
        ≡ outcomes t entries rounds started }
    ensures told { (t : Terms) (entries : List Entry) (rounds : List Round)
        → 0 < t.size → IsArchive entries → t.selection.first ≤ length entries
        → FrontsRise t.selection.first rounds
        → filter_map (λ (x : Outcome × Option (List ToldItem)). x.1)
        (placed_outcomes t entries rounds (placed_at_start t))
        ≡ told_buffers entries None (handed_buffers (outcomes t entries rounds started)) }
{}

/// No buffer that is handed over has more than `size` items, or an item behind the one that made it
/// full or behind a loss or a production change.
pub fn buffers_in_limits()
    ensures { (t : Terms) (entries : List Entry) (rounds : List Round) → 0 < t.size
        → IsArchive entries → FrontsRise 0 rounds
        → All (IsBuffer t.size) (handed_buffers (outcomes t entries rounds started)) }
{}

/// An offline delivery whose front stands still and whose offers are taken hands over, round after
/// round, the buffers into which what it picks is cut, and then nothing.
pub fn offline_rounds()
    ensures { (t : Terms) (entries : List Entry) (front : ℕ) (moments : List ℕ) → 0 < t.size
        → IsFalse (is_online t.mode)
        → handed_buffers (outcomes t entries (map (free_round front) moments) started)
        ≡ take (length moments)
        (offline_buffers t.size (picked_at t entries front)
        (is_stop_closed t.selection (take front entries))) }
{}

/// The frames that are handed over rise by their places.
pub fn handed_frames_rise()
    ensures { (t : Terms) (entries : List Entry) (rounds : List Round) → 0 < t.size
        → IsArchive entries → FrontsRise 0 rounds
        → IsStrictlyIncreasing (frame_places (handed_items (outcomes t entries rounds started))) }
{}

/// The first frame that is handed over has continuity -1, and each later one has its gap; buffer by
/// buffer, the last frame of the items before goes on to the next ones.
pub fn continuities_are_gaps()
    ensures in_order { (entries : List Entry) (items : List Item) (place : ℕ) (places : List ℕ)
        → frame_places items ≡ place ∷ places
        → continuities entries items ≡ negsuc 0 ∷ map pos (gaps entries place places) }
    ensures by_buffer { (before : Option ℕ) (xs ys : List Item) →
        with_frame_before before (xs ++ ys)
        ≡ with_frame_before before xs ++ with_frame_before (last_frame before xs) ys }
{}

/// Buffer by buffer the same is told as of all their items, and of these the continuities.
pub fn told_in_order()
    ensures by_buffer { (entries : List Entry) (before : Option ℕ) (buffers : List (List Item)) →
        flat_map (λ items. items) (told_buffers entries before buffers)
        ≡ told_items entries before (flat_map (λ buffer. buffer) buffers) }
    ensures continuities { (entries : List Entry) (items : List Item)
        → filter_map (λ x. x.1) (told_items entries None items) ≡ continuities entries items }
{}

/// What is told of frames stays as the archive grows behind them: a frame's continuity, and so all
/// that an offline START hands over, and all that was handed over in rounds.
pub fn continuity_stays()
    ensures of_a_frame { (a b : List Entry) (before : Option ℕ) (place : ℕ) → place < length a
        → continuity (a ++ b) before place ≡ continuity a before place }
    ensures of_buffers { (a b : List Entry) (before : Option ℕ) (buffers : List (List Item))
        → IsTrue (list_all (λ place. nat_lt place (length a))
        (frame_places (flat_map (λ buffer. buffer) buffers)))
        → told_buffers (a ++ b) before buffers ≡ told_buffers a before buffers }
    ensures of_an_offline_start { (size : ℕ) (a b : List Entry) (s : Selection) (closed : Bool) →
        let buffers = offline_buffers size (picked a s) closed in
        told_buffers (a ++ b) None buffers ≡ told_buffers a None buffers }
    ensures of_a_run { (t : Terms) (entries later : List Entry) (rounds : List Round)
        → 0 < t.size → IsArchive entries → FrontsRise 0 rounds →
        let done = handed_buffers (outcomes t entries rounds started) in
        told_buffers (take (last_front 0 rounds) entries ++ later) None done
        ≡ told_buffers entries None done }
{}

/// Running sums of lost frames give what was lost between two places; capped sums add up to a
/// capped sum, stay as the archive grows, and are a frame's continuity behind another.
pub fn lost_sums()
    ensures running { (a : List Entry) (p q : ℕ) → p ≤ q
        → lost_up_to a (p + 1) + lost_between a p q ≡ lost_up_to a (q + 1) }
    ensures one_more { (a : List Entry) (e : Entry)
        → lost_up_to (a ++ e ∷ []) (length a + 1) ≡ lost_up_to a (length a) + lost_of e }
    ensures joined { (a : List Entry) (p q r : ℕ) → p ≤ q → q ≤ r
        → gap a p r ≡ min GREATEST_LOST (gap a p q + gap a q r) }
    ensures greatest { (a : List Entry) (p q : ℕ) → gap a p q ≤ GREATEST_LOST }
    ensures told { (a : List Entry) (p q : ℕ) → continuity a (Some p) q ≡ pos (gap a p q) }
{}

/// Where no continuity reaches 16,777,215, those of frames behind a first one add up to all that
/// was lost between the first and the last.
pub fn continuities_add_up()
    ensures of_places { (entries : List Entry) (place : ℕ) (places : List ℕ)
        → IsStrictlyIncreasing (place ∷ places)
        → All (λ g. g < GREATEST_LOST) (gaps entries place places)
        → sum (gaps entries place places)
        ≡ lost_between entries place (slice_index (place ∷ places) (length places)) }
    ensures of_a_run { (t : Terms) (entries : List Entry) (rounds : List Round)
        → (place : ℕ) (places : List ℕ)
        → 0 < t.size → IsArchive entries → FrontsRise 0 rounds
        → frame_places (handed_items (outcomes t entries rounds started)) ≡ place ∷ places
        → All (λ g. g < GREATEST_LOST) (gaps entries place places)
        → sum (gaps entries place places)
        ≡ lost_between entries place (slice_index (place ∷ places) (length places)) }
{}

/// The definitions compute on small archives: a TM and an AOS header; the picks of a channel and of
/// a master channel; notices that come once a start is reached and until a stop is closed; first
/// positions and the selections of STARTs; a time that names no moment; frames lost before one that
/// isn't picked, and a continuity at its greatest; an archive, what is picked of it and that its
/// stop is closed; a buffer that is full and one that is due; looks that end by room, by octets and
/// with all; the statuses of a report; an offline START with a closed stop, with nothing to pick,
/// and with an open stop; an online one that hands over what is published after it, one with
/// blocked rounds, and one whose link fails; a timely one that is stalled twice, one whose discard
/// is told by a backlog, by counts and by places; and one with buffers of ten frames.
pub fn examples()
    ensures tm_header { channel_of (0 ∷ 126 ∷ [])
        ≡ Some (record { spacecraft = 7; version = 0; channel = virtual 7 }) }
    ensures aos_header { channel_of (64 ∷ 127 ∷ [])
        ≡ Some (record { spacecraft = 1; version = 1; channel = virtual 63 }) }
    ensures unknown_header { channel_of (128 ∷ 0 ∷ []) ≡ None }
    ensures archive { is_archive sealed ≡ true }
    ensures no_archive { is_archive (sealed ++ third ∷ []) ≡ false }
    ensures out_of_order { keeps_order sealed third ≡ false }
    ensures no_moment { is_valid (seal (time_of 86400000)) ≡ false }
    ensures unadmitted { admits (all_from complete 1 5 0).selection 0 (small_frame 86400000 1)
        ≡ false }
    ensures timely_selection { selection_of timely (by_quality 2) (Some 5) None 3
        ≡ record { filter = by_quality 2; start = Some 5; stop = None; first = 3; notices = true } }
    ensures offline_selection { selection_of offline (by_quality 0) (Some 5) (Some 9) 3
        ≡ record {
          filter = by_quality 0;
          start = Some 5;
          stop = Some 9;
          first = 0;
          notices = false;
        } }
    ensures full { map (λ n. is_full_of 2 n 524287) (1 ∷ 2 ∷ []) ≡ false ∷ true ∷ [] }
    ensures full_of_octets { is_full_of 9 1 524288 ≡ true }
    ensures due_by_latency { map (λ now. is_due_of 2 (Some 5) now false
        (record { count = 1; octets = 1; notified = false; since = 10 })) (14 ∷ 15 ∷ [])
        ≡ false ∷ true ∷ [] }
    ensures lost_so_far { map (lost_up_to lossy) (1 ∷ 2 ∷ 3 ∷ []) ≡ 7 ∷ 9 ∷ 12 ∷ [] }
    ensures told { told_buffers sealed None (offline_buffers 2
        (picked sealed (from_to 0 3000).selection) true)
        ≡ ((archived 0 first, Some (negsuc 0)) ∷ (archived 1 second, Some (pos 0)) ∷ [])
        ∷ ((archived 2 third, Some (pos 0)) ∷ []) ∷ ((end_of_data, None) ∷ []) ∷ [] }
    ensures picks { picked sealed (from_to 1500 3000).selection ≡ (1, second) ∷ (2, third) ∷ [] }
    ensures channel_picks { map (λ x. x.0) (picked mixed
        (of_channel (record { spacecraft = 1; version = 1; channel = virtual 63 }))) ≡ 1 ∷ [] }
    ensures master_picks { map (λ x. x.0) (picked mixed
        (of_channel (record { spacecraft = 7; version = 0; channel = master }))) ≡ 0 ∷ [] }
    ensures notices { map (λ x. x.0) (picked noted (with_notices 1000 2000)) ≡ 1 ∷ 2 ∷ [] }
    ensures first_positions { map (λ mode. first_position mode (Some 5) 3)
        (timely ∷ complete ∷ offline ∷ []) ≡ 3 ∷ 0 ∷ 0 ∷ [] }
    ensures first_positions_without_start { map (λ mode. first_position mode None 3)
        (timely ∷ complete ∷ offline ∷ []) ≡ 3 ∷ 3 ∷ 3 ∷ [] }
    ensures saturated { continuities lossiest
        (archived_items (picked lossiest (from_to 0 3000).selection))
        ≡ negsuc 0 ∷ pos 16777215 ∷ [] }
    ensures by_room { glimpse sealed (wanted_from 0 2 524288) ≡ record {
      front = 4;
      items = (archived 0 first, Some (negsuc 0)) ∷ (archived 1 second, Some (pos 0)) ∷ [];
      next = 2;
      more = true;
      closed = false;
      locks = all_locks 0;
      production = 0;
    } }
    ensures by_octets { glimpse sealed (wanted_from 1 9 3) ≡ record {
      front = 4;
      items = (archived 1 second, Some (negsuc 0)) ∷ [];
      next = 2;
      more = true;
      closed = false;
      locks = all_locks 0;
      production = 0;
    } }
    ensures all_given { glimpse sealed (wanted_from 1 9 7) ≡ record {
      front = 4;
      items = (archived 1 second, Some (negsuc 0)) ∷ (archived 2 third, Some (pos 0)) ∷ [];
      next = 3;
      more = false;
      closed = false;
      locks = all_locks 0;
      production = 0;
    } }
    ensures none_given { glimpse sealed (wanted_from 3 9 7) ≡ record {
      front = 4;
      items = [];
      next = 3;
      more = false;
      closed = false;
      locks = all_locks 0;
      production = 0;
    } }
    ensures statuses { glimpse noted wants_front ≡ record {
      front = 5;
      items = [];
      next = 0;
      more = false;
      closed = false;
      locks = record { frame_sync = 1; symbol = 1; subcarrier = 0; carrier = 0 };
      production = 1;
    } }
    ensures lost_frames { continuities lossy (archived_items
        (picked lossy (from_to 0 3000).selection)) ≡ negsuc 0 ∷ pos 5 ∷ [] }
    ensures closes { is_stop_closed (from_to 0 3000).selection sealed ≡ true }
    ensures offline_run { outcomes (from_to 0 3000) sealed (map (free_round 4) (0 ∷ 0 ∷ 0 ∷ 0 ∷ []))
        started
        ≡ handed (archived 0 first ∷ archived 1 second ∷ []) ∷ handed (archived 2 third ∷ [])
        ∷ handed (end_of_data ∷ []) ∷ nothing ∷ [] }
    ensures nothing_picked { outcomes (from_to 0 0) (seal (time_of 0) ∷ [])
        (map (free_round 1) (0 ∷ 0 ∷ [])) started
        ≡ handed (end_of_data ∷ []) ∷ nothing ∷ [] }
    ensures open_stop { outcomes (from_to 0 3000) (take 3 sealed) (map (free_round 3) (0 ∷ 0 ∷ []))
        started
        ≡ handed (archived 0 first ∷ archived 1 second ∷ []) ∷ nothing ∷ [] }
    ensures complete_run { outcomes (all_from complete 1 5 1) sealed
        (free_round 1 0 ∷ free_round 2 0 ∷ []) started
        ≡ nothing ∷ handed (archived 1 second ∷ []) ∷ [] }
    ensures timely_run { outcomes (all_from timely 1 5 0) sealed
        (stalled_round 1 0 ∷ stalled_round 1 0 ∷ free_round 2 0 ∷ free_round 2 0 ∷ []) started
        ≡ discarded (archived 0 first ∷ []) ∷ kept (backlog ∷ [])
        ∷ handed (backlog ∷ []) ∷ handed (archived 1 second ∷ []) ∷ [] }
    ensures blocked_run { outcomes (all_from complete 1 5 0) sealed
        (round_on blocked 1 0 ∷ round_on waiting 1 0 ∷ round_on blocked 2 0 ∷ free_round 2 0 ∷ [])
        started
        ≡ nothing ∷ nothing ∷ nothing ∷ handed (archived 0 first ∷ []) ∷ [] }
    ensures broken_run { outcomes (all_from complete 1 5 0) sealed
        (round_on (free fail) 1 0 ∷ free_round 1 0 ∷ []) started
        ≡ failed (archived 0 first ∷ []) ∷ [] }
    ensures told_by_backlog { outcomes (all_from timely 2 5 0) sealed
        (stalled_round 2 0 ∷ round_on waiting 3 0 ∷ free_round 3 (5 * 10 ^ 12) ∷ []) started
        ≡ discarded (archived 0 first ∷ archived 1 second ∷ []) ∷ nothing
        ∷ handed (backlog ∷ archived 2 third ∷ []) ∷ [] }
    ensures placed_run { let t = all_from timely 2 5 0 in
        map (λ x. x.0) (placed_outcomes t sealed
        (stalled_round 2 0 ∷ round_on waiting 3 0 ∷ free_round 3 (5 * 10 ^ 12) ∷ [])
        (placed_at_start t))
        ≡ discarded (archived 0 first ∷ archived 1 second ∷ []) ∷ nothing
        ∷ handed (backlog ∷ archived 2 third ∷ []) ∷ [] }
    ensures buffers_of_ten { let rounds = rounds_of_stream ++ free_round 20 (day_time 37600) ∷ [] in
        map length (handed_buffers (outcomes (all_from complete 10 5 0) stream rounds started))
        ≡ 10 ∷ 10 ∷ [] }
{}

/// After any rounds, a round whose link answers, whatever the answer, offers the first of the buffers
/// that are ready; and where none is, the last one that waits, once the round's moment is at or past
/// that at which its first item was put plus the latency limit. So a timely delivery hands it over
/// or discards it, and tells a discard in the next offer.
pub fn what_is_ready_is_offered()
    ensures ready { (t : Terms) (entries : List Entry) (rounds : List Round) (front now : ℕ)
        (answer : Answer)
        → 0 < t.size → IsArchive entries → FrontsRise 0 rounds → last_front 0 rounds ≤ front
        → (items : List Item) (rest : List (List Item)) →
        let d = after_rounds t entries rounds started in
        let r : Round = record { front = front; now = now; link = free answer } in
        ready_at t entries front d ≡ items ∷ rest
        → (outcome t entries r d).offer ≡ Some (items, answer) }
    ensures late { (t : Terms) (entries : List Entry) (rounds : List Round) (front now : ℕ)
        (answer : Answer)
        → 0 < t.size → IsArchive entries → FrontsRise 0 rounds → last_front 0 rounds ≤ front
        → (items : List Item) →
        let d = after_rounds t entries rounds started in
        let r : Round = record { front = front; now = now; link = free answer } in
        ready_at t entries front d ≡ [] → unready_at t entries front d ≡ items ∷ []
        → IsTrue (is_late (limit_of t) (put_by d now) now)
        → (outcome t entries r d).offer ≡ Some (items, answer) }
{}

/// Where the front stands still and the link takes each offer whole, a delivery hands over, one
/// buffer a round, those that are ready: a fixed one, each that is full or holds a notification,
/// and where the stop is closed the last one too and then end of data. Where the stop is open, an
/// online delivery hands the last one over once a round comes at or past the moment at which its
/// first item was put plus the latency limit.
pub fn still_rounds()
    ensures { (t : Terms) (entries : List Entry) (rounds : List Round) (front : ℕ)
        (moments : List ℕ)
        → 0 < t.size → IsArchive entries → FrontsRise 0 rounds → last_front 0 rounds ≤ front
        → let d = after_rounds t entries rounds started in
        handed_buffers (outcomes t entries (map (free_round front) moments) d)
        ≡ still_buffers_at t entries front d moments }
{}

/// Whatever comes meanwhile, each round in which the link takes an offer whole hands over the next
/// of the buffers that were ready before these rounds: the archive may grow, and a complete or
/// offline delivery's link may stall between them. It is so of a timely one whose link doesn't
/// stall, where no backlog is to be told first.
pub fn ready_buffers_come()
    ensures { (t : Terms) (entries : List Entry) (rounds later : List Round) (front : ℕ)
        → 0 < t.size → IsArchive entries → FrontsRise 0 rounds → last_front 0 rounds ≤ front
        → FrontsRise front later → IsTrue (all_keep t.mode later)
        → let d = after_rounds t entries rounds started in
        let due = take (taken_rounds later) (ready_at t entries front d) in
        IsFalse (is_timely t.mode && is_to_tell d)
        → take (length due) (handed_buffers (outcomes t entries later d)) ≡ due }
{}

/// In enough rounds whose link takes each offer whole, all is handed over: as many as there are
/// ready buffers, and where a last one isn't ready, one more at or past the moment at which its
/// first item was put plus the latency limit. A complete or offline START has then handed over all
/// that it is to hand over, end of data too where the stop is closed; a timely one has handed over
/// or discarded it.
pub fn all_is_handed_over()
    ensures complete { (t : Terms) (entries : List Entry) (rounds : List Round) (front : ℕ)
        (moments : List ℕ)
        → 0 < t.size → IsArchive entries → FrontsRise 0 rounds → last_front 0 rounds ≤ front
        → let d = after_rounds t entries rounds started in
        let still = outcomes t entries (map (free_round front) moments) d in
        IsFalse (is_timely t.mode) → IsTrue (are_enough_at t entries front d moments)
        → handed_items (outcomes t entries rounds started) ++ handed_items still
        ≡ to_hand_over t (take front entries) }
    ensures timely { (t : Terms) (entries : List Entry) (rounds : List Round) (front : ℕ)
        (moments : List ℕ)
        → 0 < t.size → IsArchive entries → FrontsRise 0 rounds → last_front 0 rounds ≤ front
        → let d = after_rounds t entries rounds started in
        let still = outcomes t entries (map (free_round front) moments) d in
        IsTrue (are_enough_at t entries front d moments)
        → without_backlog (settled_items (outcomes t entries rounds started))
        ++ without_backlog (handed_items still)
        ≡ to_hand_over t (take front entries) }
{}

/// No more ready buffers are left than picked entries and two, a fixed one and end of data.
pub fn few_buffers_are_left()
    ensures { (t : Terms) (entries : List Entry) (rounds : List Round) (front : ℕ)
        → 0 < t.size → IsArchive entries → FrontsRise 0 rounds → last_front 0 rounds ≤ front
        → length (ready_at t entries front (after_rounds t entries rounds started))
        ≤ length (picked_at t entries front) + 2 }
{}

/// Frames fill buffers of at most eight items by their number alone: so many frames fill as many
/// buffers as their number divided by the size, rounded up.
pub fn frames_fill_few_buffers()
    ensures enough { (size : ℕ) (items : List Item) → 0 < size → size ≤ 8
        → IsTrue (list_all is_short_frame items) → length items ≤ length (cut size items) * size }
    ensures no_more { (size : ℕ) (items : List Item) → 0 < size → size ≤ 8
        → IsTrue (list_all is_short_frame items)
        → length (cut size items) * size < length items + size }
{}

/// An offline START with buffers of at most eight frames and a closed stop has handed over all that
/// it picks, and end of data, after as many rounds as its frames fill buffers and two, wherever it
/// stands.
pub fn frames_come_in_few_rounds()
    ensures { (t : Terms) (entries : List Entry) (rounds : List Round) (front : ℕ)
        (moments : List ℕ)
        → 0 < t.size → t.size ≤ 8 → IsFalse (is_timely t.mode) → IsFalse t.selection.notices
        → IsArchive entries → FrontsRise 0 rounds → last_front 0 rounds ≤ front
        → IsTrue (is_stop_closed t.selection (take front entries))
        → length (picked_at t entries front) + 2 * t.size ≤ length moments * t.size
        → let d = after_rounds t entries rounds started in
        handed_items (outcomes t entries rounds started)
        ++ handed_items (outcomes t entries (map (free_round front) moments) d)
        ≡ to_hand_over t (take front entries) }
{}
