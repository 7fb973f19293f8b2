//! What goes wrong with a database.

ghost use Rattle.std.specs.Prelude.{◌≡◌};
ghost use Rattle.sql_keeper.specs.Counting.{kind};

use kept_rows::KeeperFault;
use row_texts::RowFault;
use sqlite::{Error as SqlError, ErrorCode};
use std::alloc::{AllocError, AllocFailed};
use thiserror::Error;

/// What went wrong with a database. It is never printed.
#[derive(Debug, Drop, Error)]
pub(crate) enum SqlFault {
    #[error("the database doesn't do as it is told: {0}")]
    Sql(SqlError),
    #[error("a row of no table")]
    Table,
    #[error("a row that doesn't read: {0:?}")]
    Row(RowFault),
    #[error("a row that can't be written")]
    Unwritten,
    #[error("out of memory")]
    Memory,
}

impl SqlFault {
    /// Which of a row store's faults it is: all except `Memory` are counted.
    pub(crate) fn kind(&self) -> KeeperFault
        ensures { result ≡ kind self.now }
    {
        match self {
            SqlFault::Memory => KeeperFault::Memory,
            SqlFault::Sql(_) | SqlFault::Table | SqlFault::Row(_) | SqlFault::Unwritten =>
                KeeperFault::Failed,
        }
    }
}

impl From<SqlError> for SqlFault {
    fn from(e: SqlError) -> SqlFault {
        match e {
            SqlError::SqliteFailure(ErrorCode::OutOfMemory) => SqlFault::Memory,
            _ => SqlFault::Sql(e),
        }
    }
}

impl From<RowFault> for SqlFault {
    fn from(e: RowFault) -> SqlFault {
        match e {
            RowFault::Memory => SqlFault::Memory,
            RowFault::NotJson
            | RowFault::BadVersion
            | RowFault::BadField(_)
            | RowFault::BadKey
            | RowFault::UnknownServer => SqlFault::Row(e),
        }
    }
}

impl From<AllocError> for SqlFault {
    fn from(_e: AllocError) -> SqlFault {
        SqlFault::Memory
    }
}

impl<T: Drop> From<AllocFailed<T>> for SqlFault {
    fn from(_e: AllocFailed<T>) -> SqlFault {
        SqlFault::Memory
    }
}
