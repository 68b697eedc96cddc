ghost use Rattle.object_model.specs.Command.{command_of, query_of};
ghost use Rattle.std.specs.Prelude.{◌≡◌, ◌≤◌, ◌-◌, ◌^◌, true, false, [], ℕ, IfOk, IfSome, IsErrOf, None, Some, map, ◌==◌};
ghost use Rattle.script_text.specs.declared.fault.LineFault.TheVariants.{BadLine};
ghost use Rattle.std.specs.List.{list_all, slice_split};
ghost use Rattle.std.specs.Option.{option_map};
ghost use Rattle.object_model.specs.Words.{word, is_name, number_of};
ghost use Rattle.script_text.specs.Fit.{is_filled, is_fit_limit, is_fit_line, is_fit_roster};
ghost use Rattle.script_text.specs.Script.{is_host_number, again_line, ascending, by_number, ask_line, after_four, after_seven, after_space, after_three, call_line, close_line, completed_line, deliver_line, event_by, event_line, event_of, group_by, group_line, host_at, host_line, is_group, is_named, is_session_verb, is_skipped, is_wire_verb, line_at, line_in, next_host, positive, raw_by, raw_line, read_line, read_request, register_line, replica_line, roster_of, said_in, session_line, stale_line, wire_line, wire_lines};
ghost use Rattle.host_ids.specs.declared.proposal.TheConstants.{MOST_SERIES};
ghost use Rattle.script_text.specs.declared.limit.TheConstants.{MOST_APPLIED};
ghost use Rattle.host_ids.specs.declared.proposal.TheConstants.{MOST_SESSIONS};

use crate::fault::LineFault;
use crate::limit::{MOST_APPLIED, MOST_LINE};
use crate::script::{HostEvent, ScriptLine};
use host_ids::{Kind, MOST_SERIES, MOST_SESSIONS, NoMemory, Text};
use object_model::{Words, command_of, is_name, number_of, query_of};
use std::alloc::Global;

fn is_group(words: &Words<'_>, place: usize) -> bool
    ensures { result ≡ is_group words.now place }
{
    words.is(place, b"1")
}

/// What stands after the first space.
fn after_space(text: &[u8]) -> &[u8]
    ensures { result.now ≡ after_space text.now }
{
    for (at, byte) in text.iter().enumerate() {
        if *byte == b' ' {
            return text.split_at(at + 1).1;
        }
    }
    b""
}

fn after_three(line: &[u8]) -> &[u8]
    ensures { result.now ≡ after_three line.now }
{
    after_space(after_space(after_space(line)))
}

fn after_four(line: &[u8]) -> &[u8]
    ensures { result.now ≡ after_four line.now }
{
    after_space(after_three(line))
}

fn after_seven(line: &[u8]) -> &[u8]
    ensures { result.now ≡ after_seven line.now }
{
    after_space(after_space(after_space(after_four(line))))
}

/// A number of at least 1.
fn positive(number: Option<u64>) -> Option<u64>
    ensures number { result ≡ positive number }
    ensures least { IfSome result (λ n. 1 ≤ n) }
    ensures most { (most : ℕ) → IfSome number (λ n. n ≤ most) → IfSome result (λ n. n ≤ most) }
{
    match number {
        None | Some(0) => None,
        Some(number) => Some(number),
    }
}

/// A host, 1 to 9, at a place of the words.
fn host_at(words: &Words<'_>, place: usize) -> Option<u8>
    ensures host { result ≡ host_at words.now place }
    ensures fit { IfSome result (λ h. is_host_number h ≡ true) }
{
    match number_of(9, words.word(place)) {
        None | Some(0) => None,
        Some(host) => Some(host as u8),
    }
}

fn host_line(words: &Words<'_>) -> Option<ScriptLine>
    ensures line { result ≡ host_line words.now }
    ensures fit { IfSome result (λ said. is_fit_line said ≡ true) }
{
    match host_at(words, 1) {
        None => None,
        Some(host) => Some(ScriptLine::Host { host }),
    }
}

/// The host after the last one, 1 to 9, that a text is.
fn next_host(low: u8, text: &[u8]) -> Option<u8>
    ensures host { result ≡ next_host low text.now }
    ensures fit { IfSome result (λ h. is_host_number h ≡ true) }
{
    match number_of(9, text) {
        Some(host) if host > u64::from(low) => Some(host as u8),
        _ => None,
    }
}

/// The texts between commas.
fn between_commas(alloc: Global, text: &[u8]) -> Result<Vec<&[u8]>, NoMemory>
    ensures { IfOk result (λ texts. map (λ x. x.now) texts.items ≡ slice_split (λ b. b == 44) text.now) }
{
    let texts = text.split(|b| *b == b',').collect(alloc)?;
    Ok(texts)
}

/// Hosts between commas, ascending.
fn hosts_of(alloc: Global, text: &[u8]) -> Result<Option<Vec<u8>>, NoMemory>
    ensures hosts { IfOk result (λ hosts. option_map (λ v. v.items) hosts ≡ ascending 0 (slice_split (λ b. b == 44) text.now)) }
    ensures fit { IfOk result (λ hosts. IfSome hosts (λ some. list_all is_host_number some.items ≡ true)) }
{
    let texts = between_commas(alloc, text)?;
    let mut found = Vec::new(alloc);
    let mut low = 0;
    for text in &texts {
        let Some(host) = next_host(low, text) else {
            return Ok(None);
        };
        found.push(host)?;
        low = host;
    }
    Ok(Some(found))
}

/// The voters of a group, 1 to 7 hosts.
fn roster_of(alloc: Global, text: &[u8]) -> Result<Option<Text>, NoMemory>
    ensures roster { IfOk result (λ roster. roster ≡ roster_of text.now) }
    ensures fit { IfOk result (λ roster. IfSome roster (λ hosts. is_fit_roster hosts ≡ true)) }
{
    match hosts_of(alloc, text)? {
        None => Ok(None),
        Some(hosts) => {
            if hosts.len() > 7 {
                return Ok(None);
            }
            Ok(Some(Text::from_vec(hosts)?))
        }
    }
}

/// A group of these voters, if they are some.
fn group_by(roster: Option<Text>, limit: Option<u32>) -> Option<ScriptLine>
    requires roster { IfSome roster (λ hosts. is_fit_roster hosts ≡ true) }
    requires limit { is_fit_limit limit ≡ true }
    ensures line { result ≡ group_by roster limit }
    ensures fit { IfSome result (λ said. is_fit_line said ≡ true) }
{
    match roster {
        None => None,
        Some(roster) => Some(ScriptLine::Group {
            group: 1,
            kind: Kind::Regular,
            roster,
            limit,
        }),
    }
}

/// `group 1 regular R LIMIT`, where that is its limit.
fn limited_group(
    alloc: Global,
    words: &Words<'_>,
    limit: Option<u64>,
) -> Result<Option<ScriptLine>, NoMemory>
    requires least { IfSome limit (λ n. 1 ≤ n) }
    requires most { IfSome limit (λ n. n ≤ MOST_SESSIONS) }
    ensures line { IfOk result (λ line. line ≡ by_number limit (λ n. group_by (roster_of (word words.now 3)) (Some n))) }
    ensures fit { IfOk result (λ line. IfSome line (λ said. is_fit_line said ≡ true)) }
{
    match limit {
        None => Ok(None),
        Some(limit) => {
            let roster = roster_of(alloc, words.word(3))?;
            Ok(group_by(roster, Some(limit as u32)))
        }
    }
}

fn group_line(alloc: Global, words: &Words<'_>) -> Result<Option<ScriptLine>, NoMemory>
    ensures line { IfOk result (λ line. line ≡ group_line words.now) }
    ensures fit { IfOk result (λ line. IfSome line (λ said. is_fit_line said ≡ true)) }
{
    if !(is_group(words, 1) && words.is(2, b"regular")) {
        return Ok(None);
    }
    match words.len() {
        4 => {
            let roster = roster_of(alloc, words.word(3))?;
            Ok(group_by(roster, None))
        }
        5 => limited_group(
            alloc,
            words,
            positive(number_of(u64::from(MOST_SESSIONS), words.word(4))),
        ),
        _ => Ok(None),
    }
}

#[tactic(auto, using(crate::proofs::Commands::filled_command))]
fn ask_line(
    alloc: Global,
    host: u8,
    words: &Words<'_>,
    text: &[u8],
) -> Result<Option<ScriptLine>, NoMemory>
    requires { is_host_number host ≡ true }
    ensures line { IfOk result (λ line. line ≡ ask_line host words.now text.now) }
    ensures fit { IfOk result (λ line. IfSome line (λ said. is_fit_line said ≡ true)) }
{
    if !is_name(words.word(3), 16) {
        return Ok(None);
    }
    if command_of(alloc, text)?.is_none() {
        return Ok(None);
    }
    Ok(Some(ScriptLine::Ask {
        host,
        group: 1,
        context: Text::new(alloc, words.word(3))?,
        command: Text::new(alloc, text)?,
    }))
}

fn read_request(
    alloc: Global,
    host: u8,
    words: &Words<'_>,
    text: &[u8],
) -> Result<Option<ScriptLine>, NoMemory>
    requires { is_host_number host ≡ true }
    ensures line { IfOk result (λ line. line ≡ read_request host words.now text.now) }
    ensures fit { IfOk result (λ line. IfSome line (λ said. is_fit_line said ≡ true)) }
{
    if !is_name(words.word(3), 16) {
        return Ok(None);
    }
    if query_of(alloc, text)?.is_none() {
        return Ok(None);
    }
    Ok(Some(ScriptLine::Read {
        host,
        group: 1,
        context: Text::new(alloc, words.word(3))?,
        query: Text::new(alloc, text)?,
    }))
}

fn stale_line(alloc: Global, host: u8, text: &[u8]) -> Result<Option<ScriptLine>, NoMemory>
    requires { is_host_number host ≡ true }
    ensures line { IfOk result (λ line. line ≡ stale_line host text.now) }
    ensures fit { IfOk result (λ line. IfSome line (λ said. is_fit_line said ≡ true)) }
{
    if query_of(alloc, text)?.is_none() {
        return Ok(None);
    }
    Ok(Some(ScriptLine::Stale {
        host,
        group: 1,
        query: Text::new(alloc, text)?,
    }))
}

fn is_named(words: &Words<'_>, place: usize) -> bool
    ensures { result ≡ is_named words.now place }
{
    is_name(words.word(place), 16)
}

fn register_by(
    alloc: Global,
    host: u8,
    words: &Words<'_>,
    client: Option<u64>,
) -> Result<Option<ScriptLine>, NoMemory>
    requires host { is_host_number host ≡ true }
    requires client { IfSome client (λ n. 1 ≤ n) }
    ensures line { IfOk result (λ line. line ≡ by_number client (λ n. Some (ScriptLine.Register host 1 (word words.now 3) (word words.now 4) n))) }
    ensures fit { IfOk result (λ line. IfSome line (λ said. is_fit_line said ≡ true)) }
{
    match client {
        None => Ok(None),
        Some(client) => Ok(Some(ScriptLine::Register {
            host,
            group: 1,
            context: Text::new(alloc, words.word(3))?,
            session: Text::new(alloc, words.word(4))?,
            client,
        })),
    }
}

fn register_line(alloc: Global, host: u8, words: &Words<'_>) -> Result<Option<ScriptLine>, NoMemory>
    requires { is_host_number host ≡ true }
    ensures line { IfOk result (λ line. line ≡ register_line host words.now) }
    ensures fit { IfOk result (λ line. IfSome line (λ said. is_fit_line said ≡ true)) }
{
    if !(is_named(words, 3) && is_named(words, 4)) {
        return Ok(None);
    }
    register_by(
        alloc,
        host,
        words,
        positive(number_of(u64::MAX, words.word(5))),
    )
}

fn raw_by(
    alloc: Global,
    host: u8,
    words: &Words<'_>,
    text: &[u8],
    client: Option<u64>,
    series: Option<u64>,
    responded: Option<u64>,
) -> Result<Option<ScriptLine>, NoMemory>
    requires host { is_host_number host ≡ true }
    requires filled { is_filled text.now ≡ true }
    requires series_in { IfSome series (λ n. n ≤ MOST_SERIES) }
    requires responded_in { IfSome responded (λ n. n ≤ MOST_SERIES) }
    ensures line { IfOk result (λ line. line ≡ raw_by host words.now text.now client series responded) }
    ensures fit { IfOk result (λ line. IfSome line (λ said. is_fit_line said ≡ true)) }
{
    let Some(client) = client else {
        return Ok(None);
    };
    let Some(series) = series else {
        return Ok(None);
    };
    let Some(responded) = responded else {
        return Ok(None);
    };
    if client == 0 || series == 0 {
        return Ok(None);
    }
    Ok(Some(ScriptLine::Raw {
        host,
        group: 1,
        context: Text::new(alloc, words.word(3))?,
        client,
        series,
        responded,
        command: Text::new(alloc, text)?,
    }))
}

#[tactic(auto, using(crate::proofs::Commands::filled_command))]
fn raw_line(
    alloc: Global,
    host: u8,
    words: &Words<'_>,
    text: &[u8],
) -> Result<Option<ScriptLine>, NoMemory>
    requires { is_host_number host ≡ true }
    ensures line { IfOk result (λ line. line ≡ raw_line host words.now text.now) }
    ensures fit { IfOk result (λ line. IfSome line (λ said. is_fit_line said ≡ true)) }
{
    if !is_named(words, 3) {
        return Ok(None);
    }
    if command_of(alloc, text)?.is_none() {
        return Ok(None);
    }
    let client = number_of(u64::MAX, words.word(4));
    let series = number_of(MOST_SERIES, words.word(5));
    let responded = number_of(MOST_SERIES, words.word(6));
    raw_by(alloc, host, words, text, client, series, responded)
}

#[tactic(auto, using(crate::proofs::Commands::filled_command))]
fn call_line(
    alloc: Global,
    host: u8,
    words: &Words<'_>,
    text: &[u8],
) -> Result<Option<ScriptLine>, NoMemory>
    requires { is_host_number host ≡ true }
    ensures line { IfOk result (λ line. line ≡ call_line host words.now text.now) }
    ensures fit { IfOk result (λ line. IfSome line (λ said. is_fit_line said ≡ true)) }
{
    if !(is_named(words, 2) && is_named(words, 3)) {
        return Ok(None);
    }
    if command_of(alloc, text)?.is_none() {
        return Ok(None);
    }
    Ok(Some(ScriptLine::Call {
        host,
        context: Text::new(alloc, words.word(2))?,
        session: Text::new(alloc, words.word(3))?,
        command: Text::new(alloc, text)?,
    }))
}

fn again_line(alloc: Global, host: u8, words: &Words<'_>) -> Result<Option<ScriptLine>, NoMemory>
    requires { is_host_number host ≡ true }
    ensures line { IfOk result (λ line. line ≡ again_line host words.now) }
    ensures fit { IfOk result (λ line. IfSome line (λ said. is_fit_line said ≡ true)) }
{
    if !(is_named(words, 2) && is_named(words, 3)) {
        return Ok(None);
    }
    Ok(Some(ScriptLine::Again {
        host,
        context: Text::new(alloc, words.word(2))?,
        session: Text::new(alloc, words.word(3))?,
    }))
}

fn close_line(alloc: Global, host: u8, words: &Words<'_>) -> Result<Option<ScriptLine>, NoMemory>
    requires { is_host_number host ≡ true }
    ensures line { IfOk result (λ line. line ≡ close_line host words.now) }
    ensures fit { IfOk result (λ line. IfSome line (λ said. is_fit_line said ≡ true)) }
{
    if !(is_named(words, 2) && is_named(words, 3)) {
        return Ok(None);
    }
    Ok(Some(ScriptLine::Close {
        host,
        context: Text::new(alloc, words.word(2))?,
        session: Text::new(alloc, words.word(3))?,
    }))
}

fn completed_line(alloc: Global, words: &Words<'_>) -> Result<Option<ScriptLine>, NoMemory>
    ensures line { IfOk result (λ line. line ≡ completed_line words.now) }
    ensures fit { IfOk result (λ line. IfSome line (λ said. is_fit_line said ≡ true)) }
{
    if !is_named(words, 1) {
        return Ok(None);
    }
    Ok(Some(ScriptLine::Completed {
        session: Text::new(alloc, words.word(1))?,
    }))
}

/// The event that a line of three words names.
fn event_of(words: &Words<'_>) -> Option<HostEvent>
    ensures { result ≡ event_of words.now }
{
    if words.is(0, b"timeout") {
        return Some(HostEvent::Timeout { group: 1 });
    }
    if words.is(0, b"beat") {
        return Some(HostEvent::Beat { group: 1 });
    }
    if words.is(0, b"ready") {
        return Some(HostEvent::Ready { group: 1 });
    }
    if words.is(0, b"save") {
        return Some(HostEvent::Save { group: 1 });
    }
    None
}

fn event_by(host: u8, event: Option<HostEvent>) -> Option<ScriptLine>
    requires { is_host_number host ≡ true }
    ensures line { result ≡ event_by host event }
    ensures fit { IfSome result (λ said. is_fit_line said ≡ true) }
{
    match event {
        None => None,
        Some(event) => Some(ScriptLine::Event { host, event }),
    }
}

fn apply_by(host: u8, most: Option<u64>) -> Option<ScriptLine>
    requires host { is_host_number host ≡ true }
    requires most { IfSome most (λ n. n ≤ MOST_APPLIED) }
    ensures line { result ≡ by_number most (λ n. Some (ScriptLine.Event host (HostEvent.Apply 1 n))) }
    ensures fit { IfSome result (λ said. is_fit_line said ≡ true) }
{
    match most {
        None => None,
        Some(most) => Some(ScriptLine::Event {
            host,
            event: HostEvent::Apply {
                group: 1,
                most: most as u32,
            },
        }),
    }
}

fn event_line(host: u8, words: &Words<'_>) -> Option<ScriptLine>
    requires { is_host_number host ≡ true }
    ensures line { result ≡ event_line host words.now }
    ensures fit { IfSome result (λ said. is_fit_line said ≡ true) }
{
    if words.len() == 3 {
        return event_by(host, event_of(words));
    }
    if words.begins(4, b"apply") {
        return apply_by(
            host,
            positive(number_of(u64::from(MOST_APPLIED), words.word(3))),
        );
    }
    None
}

fn deliver_line(words: &Words<'_>) -> Option<ScriptLine>
    ensures line { result ≡ deliver_line words.now }
    ensures fit { IfSome result (λ said. is_fit_line said ≡ true) }
{
    match number_of(u64::MAX, words.word(2)) {
        None => None,
        Some(number) => Some(ScriptLine::Deliver { group: 1, number }),
    }
}

fn wire_line(words: &Words<'_>) -> Option<ScriptLine>
    ensures line { result ≡ wire_line words.now }
    ensures fit { IfSome result (λ said. is_fit_line said ≡ true) }
{
    match number_of(u64::MAX, words.word(2)) {
        None => None,
        Some(number) => Some(ScriptLine::Wire { group: 1, number }),
    }
}

fn replica_line(
    alloc: Global,
    host: u8,
    words: &Words<'_>,
    line: &[u8],
) -> Result<Option<ScriptLine>, NoMemory>
    requires { is_host_number host ≡ true }
    ensures line { IfOk result (λ said. said ≡ replica_line host words.now line.now) }
    ensures fit { IfOk result (λ line. IfSome line (λ said. is_fit_line said ≡ true)) }
{
    if words.is(0, b"ask") {
        return ask_line(alloc, host, words, after_four(line));
    }
    if words.is(0, b"read") {
        return read_request(alloc, host, words, after_four(line));
    }
    if words.is(0, b"stale") {
        return stale_line(alloc, host, after_three(line));
    }
    if words.begins(6, b"register") {
        return register_line(alloc, host, words);
    }
    if words.is(0, b"raw") {
        return raw_line(alloc, host, words, after_seven(line));
    }
    Ok(event_line(host, words))
}

fn session_line(
    alloc: Global,
    host: u8,
    words: &Words<'_>,
    line: &[u8],
) -> Result<Option<ScriptLine>, NoMemory>
    requires { is_host_number host ≡ true }
    ensures line { IfOk result (λ said. said ≡ session_line host words.now line.now) }
    ensures fit { IfOk result (λ line. IfSome line (λ said. is_fit_line said ≡ true)) }
{
    if words.is(0, b"call") {
        return call_line(alloc, host, words, after_four(line));
    }
    if words.begins(4, b"again") {
        return again_line(alloc, host, words);
    }
    if words.begins(4, b"close") {
        return close_line(alloc, host, words);
    }
    Ok(None)
}

fn is_session_verb(words: &Words<'_>) -> bool
    ensures { result ≡ is_session_verb words.now }
{
    words.is(0, b"call") || words.is(0, b"again") || words.is(0, b"close")
}

fn line_at(
    alloc: Global,
    host: u8,
    words: &Words<'_>,
    line: &[u8],
) -> Result<Option<ScriptLine>, NoMemory>
    requires { is_host_number host ≡ true }
    ensures line { IfOk result (λ said. said ≡ line_at host words.now line.now) }
    ensures fit { IfOk result (λ line. IfSome line (λ said. is_fit_line said ≡ true)) }
{
    if is_session_verb(words) {
        return session_line(alloc, host, words, line);
    }
    if is_group(words, 2) {
        return replica_line(alloc, host, words, line);
    }
    Ok(None)
}

fn wire_lines(words: &Words<'_>) -> Option<ScriptLine>
    ensures line { result ≡ wire_lines words.now }
    ensures fit { IfSome result (λ said. is_fit_line said ≡ true) }
{
    if words.begins(2, b"settle") {
        return Some(ScriptLine::Settle { group: 1 });
    }
    if words.begins(2, b"lose") {
        return Some(ScriptLine::Lose { group: 1 });
    }
    if words.begins(3, b"deliver") {
        return deliver_line(words);
    }
    if words.begins(3, b"wire") {
        return wire_line(words);
    }
    None
}

fn is_wire_verb(words: &Words<'_>) -> bool
    ensures { result ≡ is_wire_verb words.now }
{
    words.is(0, b"settle")
        || words.is(0, b"lose")
        || words.is(0, b"deliver")
        || words.is(0, b"wire")
}

/// A line of a host, if one is named.
fn line_of(
    alloc: Global,
    host: Option<u8>,
    words: &Words<'_>,
    line: &[u8],
) -> Result<Option<ScriptLine>, NoMemory>
    requires { IfSome host (λ h. is_host_number h ≡ true) }
    ensures line { IfOk result (λ said. said ≡ by_number host (λ h. line_at h words.now line.now)) }
    ensures fit { IfOk result (λ line. IfSome line (λ said. is_fit_line said ≡ true)) }
{
    match host {
        None => Ok(None),
        Some(host) => line_at(alloc, host, words, line),
    }
}

fn said_in(alloc: Global, words: &Words<'_>, line: &[u8]) -> Result<Option<ScriptLine>, NoMemory>
    ensures line { IfOk result (λ said. said ≡ said_in words.now line.now) }
    ensures fit { IfOk result (λ line. IfSome line (λ said. is_fit_line said ≡ true)) }
{
    if words.begins(2, b"host") {
        return Ok(host_line(words));
    }
    if words.is(0, b"group") {
        return group_line(alloc, words);
    }
    if words.begins(2, b"completed") {
        return completed_line(alloc, words);
    }
    if is_wire_verb(words) {
        if !is_group(words, 1) {
            return Ok(None);
        }
        return Ok(wire_lines(words));
    }
    line_of(alloc, host_at(words, 1), words, line)
}

fn line_in(alloc: Global, words: &Words<'_>, line: &[u8]) -> Result<Option<ScriptLine>, NoMemory>
    ensures line { IfOk result (λ said. said ≡ line_in words.now line.now) }
    ensures fit { IfOk result (λ line. IfSome line (λ said. is_fit_line said ≡ true)) }
{
    if words.begins(1, b"end") {
        return Ok(Some(ScriptLine::End));
    }
    said_in(alloc, words, line)
}

/// Whether a line is empty or a comment.
fn is_skipped(line: &[u8]) -> bool
    ensures { result ≡ is_skipped line.now }
{
    match line {
        [] => true,
        [first, ..] => *first == b'#',
    }
}

/// What a line says, if it is one.
#[tactic(auto, unfolding(crate::specs::Script::read_line))]
fn line_said(alloc: Global, line: &[u8]) -> Result<Option<ScriptLine>, NoMemory>
    ensures line { IfOk result (λ said. said ≡ read_line line.now) }
    ensures fit { IfOk result (λ line. IfSome line (λ said. is_fit_line said ≡ true)) }
{
    if line.len() > MOST_LINE {
        return Ok(None);
    }
    if is_skipped(line) {
        return Ok(Some(ScriptLine::Skipped));
    }
    let words = Words::of(alloc, line)?;
    line_in(alloc, &words, line)
}

/// Reads a line of a script, without its line feed.
///
/// `BadLine` comes exactly where the bytes are no line, and carries the number that is given;
/// they are none where they have more than 4,096 bytes. A comment may hold any bytes. The other error is
/// `NoMemory`. Source: this project's own.
pub fn read_line(alloc: Global, line: &[u8], number: u64) -> Result<ScriptLine, LineFault>
    ensures line { IfOk result (λ said. read_line line.now ≡ Some said) }
    ensures fit { IfOk result (λ said. is_fit_line said ≡ true) }
    ensures bad { (at : ℕ) → IsErrOf result (BadLine at) → (at ≡ number) × (read_line line.now ≡ None) }
{
    match line_said(alloc, line)? {
        Some(said) => Ok(said),
        None => Err(LineFault::BadLine { line: number }),
    }
}
