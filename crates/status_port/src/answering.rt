// Answers of a status page to what a connection holds.
ghost use Rattle.std.specs.Prelude.{◌≡◌};
ghost use Rattle.http_server.specs.Connection.{config_of, history};
ghost use Rattle.http_server.specs.History.{IsServed};
ghost use Rattle.status_port.specs.Answered.{AnsweredSince};

use http_server::Connection;
use status_page::StatusPage;

/// Answers each whole request that a connection holds, by one snapshot: what it sends from then on is
/// those answers, in order.
pub fn answer(connection: &mut Connection, page: &mut StatusPage)
    ensures page { page.new ≡ page.old }
    ensures calls { AnsweredSince page.old.snapshot
        (history connection.old).calls (history connection.new).calls }
    ensures served { ∥ IsServed (config_of connection.new) (history connection.new) ∥₁ }
{
    connection.advance(page);
}
